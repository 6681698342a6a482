// The two readers. They cannot return a slice, so read ledger says where in the caller's entry buffer its part is.
ghost use Rattle.chain.specs.Operations.{buffers};
ghost use Rattle.capi.specs.Calls.{LedgerCall, ChainCall};

use capi::reading::{ChainCount, LedgerPart};

#[unsafe(no_mangle)]
pub extern "C" fn cindrolf_read_ledger(state: &[u64], entries: &[u64], ledger: u64) -> LedgerPart
    ensures { LedgerCall ledger (buffers state.now entries.now) result.answer result.start result.count }
{
    capi::reading::cindrolf_read_ledger(state, entries, ledger)
}

#[unsafe(no_mangle)]
pub extern "C" fn cindrolf_read_chain(
    state: &[u64],
    entries: &[u64],
    output: &mut [u64],
) -> ChainCount
    ensures { ChainCall (buffers state.now entries.now) output.old result.answer
        result.count output.new }
{
    capi::reading::cindrolf_read_chain(state, entries, output)
}
