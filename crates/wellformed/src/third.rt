// The checks of an operation that is lent a third buffer beside the log: the lengths of all three, and then their contents.
ghost use Rattle.chain.specs.Operations.{buffers};
ghost use Rattle.wellformed.specs.Third.{IsThirdVerdict};

use chain::answer::Refusal;
use records::head::Head;

// `fits` tests the words of the third buffer, by the head of the log.
pub fn verdict<F: FnOnce(Head) -> bool>(
    state: &[u64],
    entries: &[u64],
    right_length: bool,
    fits: F,
) -> Result<(), Refusal>
    requires { F.IsAlwaysCallable fits }
    ensures { IsThirdVerdict (buffers state.now entries.now) right_length (F.post fits) result }
{
    if !right_length {
        return Err(Refusal::WrongLength);
    }
    let head = crate::check_log(state, entries)?;
    if fits(head) {
        Ok(())
    } else {
        Err(Refusal::NotWellFormed)
    }
}
