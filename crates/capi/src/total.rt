// The list place by place, the sum of a ledger, and the run total.
ghost use Rattle.std.specs.Prelude.{◌≡◌};
ghost use Rattle.chain.specs.Operations.{buffers};
ghost use Rattle.capi.specs.TotalCalls.{PlaceCall, SumCall, TotalCall};

use crate::number::status;
use chain::answer::Refusal;
use records::numbers::{LedgerNumber, ListPlace};
use totals::answer::{LedgerSum, RunTotal};

// The answer, and the number of the ledger at a list place, 0 on a refusal.
#[repr(C)]
#[derive(Clone, Copy, Debug, PartialEq, Eq)]
pub struct ListedLedger {
    pub answer: u64,
    pub ledger: u64,
}

// The answer, and a ledger's entries and the sum of their values, 0 on a refusal.
#[repr(C)]
#[derive(Clone, Copy, Debug, PartialEq, Eq)]
pub struct SummedLedger {
    pub answer: u64,
    pub entries: u64,
    pub sum: u64,
}

// The answer, and the sum of the run, exact and rounded, 0 on a refusal.
#[repr(C)]
#[derive(Clone, Copy, Debug, PartialEq, Eq)]
pub struct SummedRun {
    pub answer: u64,
    pub ones: u64,
    pub parts: u64,
    pub rounded: u64,
}

impl From<Result<LedgerNumber, Refusal>> for ListedLedger {
    ghost use Rattle.chain.specs.Answers.{place_number, place_ledger};

    ghost from_gives = { λ a listed. (listed.answer ≡ place_number a) × (listed.ledger ≡ place_ledger a) };

    fn from(a: Result<LedgerNumber, Refusal>) -> ListedLedger {
        ListedLedger {
            answer: status(&a),
            ledger: a.map_or(0, |l| l.0),
        }
    }
}

impl From<Result<LedgerSum, Refusal>> for SummedLedger {
    ghost use Rattle.totals.specs.Totals.{sum_number, sum_entries, sum_parts};

    ghost from_gives = { λ a summed. (summed.answer ≡ sum_number a) × ((summed.entries ≡ sum_entries a) × (summed.sum ≡ sum_parts a)) };

    fn from(a: Result<LedgerSum, Refusal>) -> SummedLedger {
        SummedLedger {
            answer: status(&a),
            entries: a.map_or(0, |s| s.entries),
            sum: a.map_or(0, |s| s.sum),
        }
    }
}

impl From<Result<RunTotal, Refusal>> for SummedRun {
    ghost use Rattle.totals.specs.Totals.{total_number, total_ones, total_parts, total_rounded};

    ghost from_gives = { λ a summed. (summed.answer ≡ total_number a) × ((summed.ones ≡ total_ones a)
        × ((summed.parts ≡ total_parts a) × (summed.rounded ≡ total_rounded a))) };

    fn from(a: Result<RunTotal, Refusal>) -> SummedRun {
        SummedRun {
            answer: status(&a),
            ones: a.map_or(0, |t| t.ones),
            parts: a.map_or(0, |t| t.parts),
            rounded: a.map_or(0, |t| t.rounded),
        }
    }
}

pub fn cindrolf_ledger_at(state: &[u64], entries: &[u64], place: u64) -> ListedLedger
    ensures { PlaceCall place (buffers state.now entries.now) result.answer result.ledger }
{
    let a = readers::ledger_at::ledger_at(state, entries, ListPlace(place));
    ListedLedger::from(a)
}

pub fn cindrolf_ledger_sum(state: &[u64], entries: &[u64], ledger: u64) -> SummedLedger
    ensures { SumCall ledger (buffers state.now entries.now) result.answer result.entries result.sum }
{
    let a = totals::ledger_sum::ledger_sum(state, entries, LedgerNumber(ledger));
    SummedLedger::from(a)
}

pub fn cindrolf_run_total(state: &[u64], entries: &[u64]) -> SummedRun
    ensures { TotalCall (buffers state.now entries.now) result.answer result.ones result.parts result.rounded }
{
    let a = totals::run_total::run_total(state, entries);
    SummedRun::from(a)
}
