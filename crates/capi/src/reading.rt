// The two readers. They cannot return a slice, so read ledger says where in the caller's entry buffer its part is.
ghost use Rattle.std.specs.Prelude.{◌≡◌};
ghost use Rattle.chain.specs.Operations.{buffers};
ghost use Rattle.capi.specs.Calls.{LedgerCall, ChainCall};

use chain::answer::Refusal;
use records::numbers::LedgerNumber;

// Read ledger's answer, and its part: the index of the first word and the number of words, both 0 where it is empty.
#[repr(C)]
#[derive(Clone, Copy, Debug, PartialEq, Eq)]
pub struct LedgerPart {
    pub answer: u64,
    pub start: u64,
    pub count: u64,
}

// Read chain's answer, and the number of words that it wrote, 0 on a refusal.
#[repr(C)]
#[derive(Clone, Copy, Debug, PartialEq, Eq)]
pub struct ChainCount {
    pub answer: u64,
    pub count: u64,
}

impl From<Result<u64, Refusal>> for ChainCount {
    ghost use Rattle.chain.specs.Answers.{chain_number, chain_count};

    ghost from_gives = { λ a read. (read.answer ≡ chain_number a) × (read.count ≡ chain_count a) };

    fn from(a: Result<u64, Refusal>) -> ChainCount {
        ChainCount {
            answer: crate::number::status(&a),
            count: a.unwrap_or(0),
        }
    }
}

// Field by field, and no From: the answer's number asks for `NumbersBelow`.
pub fn cindrolf_read_ledger(state: &[u64], entries: &[u64], ledger: u64) -> LedgerPart
    ensures { LedgerCall ledger (buffers state.now entries.now) result.answer result.start result.count }
{
    let found = readers::locate::locate(state, entries, LedgerNumber(ledger));
    let a = found.answer;
    LedgerPart {
        answer: crate::number::answer_number(a),
        start: found.start.0,
        count: found.count,
    }
}

pub fn cindrolf_read_chain(state: &[u64], entries: &[u64], output: &mut [u64]) -> ChainCount
    ensures { ChainCall (buffers state.now entries.now) output.old result.answer
        result.count output.new }
{
    let a = readers::read_chain::read_chain(state, entries, output);
    ChainCount::from(a)
}
