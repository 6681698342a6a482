// The first window of the chain reading whose values add up to more than a limit. Neither the reading nor a part of it is copied.
//
// `first_window` takes `state` and `entries` as two parameters: they may be no log, and it refuses those with 1 and 2. Behind the check a `Log` holds
// both.
#![tactic(auto)]

mod walk;
mod words;

ghost use Rattle.std.specs.Prelude.{◌≡◌};
ghost use Rattle.chain.specs.Operations.{buffers};
ghost use Rattle.chain.specs.Windows.{first_window};

use chain::answer::Refusal;
use limits::WINDOW_LIMIT;
use readers::log::Log;
use records::numbers::ReadingPlace;

// A window is `length` words of the reading in a row; it is over where the sum of their values is above the limit.
pub fn first_window(
    state: &[u64],
    entries: &[u64],
    length: u64,
    limit: u64,
) -> Result<Option<ReadingPlace>, Refusal>
    ensures { result ≡ first_window length limit (buffers state.now entries.now) }
{
    let log = Log::checked(state, entries)?;
    if length == 0 {
        return Err(Refusal::WindowLength);
    }
    if WINDOW_LIMIT < length {
        return Err(Refusal::WindowLength);
    }
    Ok(walk::first_over(log, length, limit))
}
