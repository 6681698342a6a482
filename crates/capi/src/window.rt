// The search for a window of the chain reading.
ghost use Rattle.std.specs.Prelude.{◌≡◌};
ghost use Rattle.chain.specs.Operations.{buffers};
ghost use Rattle.capi.specs.Calls.{WindowCall};

use chain::answer::Refusal;
use records::numbers::ReadingPlace;

// The answer, done or a refusal; 1 where a window was found; and where it starts in the reading, 0 where none was found.
#[repr(C)]
#[derive(Clone, Copy, Debug, PartialEq, Eq)]
pub struct WindowFound {
    pub answer: u64,
    pub found: u64,
    pub start: u64,
}

impl From<Result<Option<ReadingPlace>, Refusal>> for WindowFound {
    ghost use Rattle.chain.specs.Answers.{window_number, window_found, window_start};

    ghost from_gives = { λ a window. (window.answer ≡ window_number a)
        × ((window.found ≡ window_found a) × (window.start ≡ window_start a)) };

    fn from(a: Result<Option<ReadingPlace>, Refusal>) -> WindowFound {
        let place = a.unwrap_or(None);
        WindowFound {
            answer: crate::number::status(&a),
            found: u64::from(place.is_some()),
            start: place.map_or(0, |at| at.0),
        }
    }
}

pub fn cindrolf_first_window(state: &[u64], entries: &[u64], window: u64, limit: u64) -> WindowFound
    ensures { WindowCall window limit (buffers state.now entries.now) result.answer result.found result.start }
{
    let a = windows::first_window(state, entries, window, limit);
    WindowFound::from(a)
}
