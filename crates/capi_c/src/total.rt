// The list place by place, the sum of a ledger, and the run total.
ghost use Rattle.chain.specs.Operations.{buffers};
ghost use Rattle.capi.specs.TotalCalls.{PlaceCall, SumCall, TotalCall};

use capi::total::{ListedLedger, SummedLedger, SummedRun};

#[unsafe(no_mangle)]
pub extern "C" fn cindrolf_ledger_at(state: &[u64], entries: &[u64], place: u64) -> ListedLedger
    ensures { PlaceCall place (buffers state.now entries.now) result.answer result.ledger }
{
    capi::total::cindrolf_ledger_at(state, entries, place)
}

#[unsafe(no_mangle)]
pub extern "C" fn cindrolf_ledger_sum(state: &[u64], entries: &[u64], ledger: u64) -> SummedLedger
    ensures { SumCall ledger (buffers state.now entries.now) result.answer result.entries result.sum }
{
    capi::total::cindrolf_ledger_sum(state, entries, ledger)
}

#[unsafe(no_mangle)]
pub extern "C" fn cindrolf_run_total(state: &[u64], entries: &[u64]) -> SummedRun
    ensures { TotalCall (buffers state.now entries.now) result.answer result.ones result.parts result.rounded }
{
    capi::total::cindrolf_run_total(state, entries)
}
