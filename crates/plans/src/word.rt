// A step word: the step's number in 4 bits, most significant first, its client in 8, and a value in 52.
ghost use Rattle.chain.specs.Operations.{buffers};
ghost use Rattle.chain.specs.Plans.{word_step};
ghost use Rattle.plans.specs.Numbers.{TakeResult};
ghost use Rattle.plans.specs.Words.{Tells};

use chain::answer::Answer;
use chain::kind::UnknownStep;
use dispatch::Step;

// The unit of each field: its lowest bit.
pub const NUMBER_UNIT: u64 = 1 << 60;

pub const CLIENT_UNIT: u64 = 1 << 52;

// The fields of any word are taken out here; `stretch` takes the value out of one that it has found to be a write. A step word is no
// `records::packed::Packed`, which would also have to say how one is stored.
pub fn planned_step(word: u64) -> Result<Step, UnknownStep>
    ensures { Tells word result }
{
    let number = word / NUMBER_UNIT % 16;
    let client = word / CLIENT_UNIT % 256;
    crate::number::numbered(number, client, word % CLIENT_UNIT)
}

// One step word on buffers of any length and content.
pub fn take_planned(state: &mut [u64], entries: &mut [u64], rights: &[u64], word: u64) -> Answer
    ensures { TakeResult (word_step rights.now word)
        (buffers state.old entries.old) result state.new entries.new }
{
    let planned = planned_step(word);
    crate::number::take(state, entries, rights, planned)
}
