// The first checks of every step: the lengths of all three buffers, and then their contents.
ghost use Rattle.std.specs.Prelude.{◌≡◌, []};
ghost use Rattle.chain.specs.Verdicts.{verdict};
ghost use Rattle.chain.specs.Operations.{buffers, lent_checks};

use chain::answer::Refusal;

pub fn lent_verdict(state: &[u64], entries: &[u64], rights: &[u64]) -> Result<(), Refusal>
    ensures { result ≡ verdict (lent_checks rights.now (buffers state.now entries.now) []) }
{
    let right_length = rights.len() == crate::LENGTH;
    wellformed::third::verdict(state, entries, right_length, |head| {
        crate::form::rights_fit(rights, head.client_count)
    })
}
