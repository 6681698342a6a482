// The search for a window of the chain reading.
ghost use Rattle.chain.specs.Operations.{buffers};
ghost use Rattle.capi.specs.Calls.{WindowCall};

use capi::window::WindowFound;

#[unsafe(no_mangle)]
pub extern "C" fn cindrolf_first_window(
    state: &[u64],
    entries: &[u64],
    window: u64,
    limit: u64,
) -> WindowFound
    ensures { WindowCall window limit (buffers state.now entries.now) result.answer result.found result.start }
{
    capi::window::cindrolf_first_window(state, entries, window, limit)
}
