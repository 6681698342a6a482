// A step by its number, from 0 in the reference's order of steps, on buffers of any length and content.
ghost use Rattle.chain.specs.Operations.{buffers};
ghost use Rattle.chain.specs.Plans.{numbered_step};
ghost use Rattle.plans.specs.Numbers.{planned_of, Numbered, TakeResult};

use chain::answer::{Answer, Refusal};
use chain::kind::{Kind, UnknownStep};
use dispatch::Step;

// The value counts only for a write, as in `dispatch::Step`. No TryFrom, here and in `word`: three numbers, or a word, are no type of their own.
pub fn numbered(number: u64, client: u64, value: u64) -> Result<Step, UnknownStep>
    ensures { Numbered number client value result }
{
    let kind = Kind::try_from(number)?;
    Ok(Step {
        client,
        kind,
        value,
    })
}

// 25 comes before 1.
pub fn take(
    state: &mut [u64],
    entries: &mut [u64],
    rights: &[u64],
    planned: Result<Step, UnknownStep>,
) -> Answer
    ensures { TakeResult (planned_of rights.now planned)
        (buffers state.old entries.old) result state.new entries.new }
{
    match planned {
        Ok(step) => dispatch::check_and_take(state, entries, rights, step),
        Err(e) => Answer::Refused(Refusal::from(e)),
    }
}

pub fn take_by_number(
    state: &mut [u64],
    entries: &mut [u64],
    rights: &[u64],
    number: u64,
    client: u64,
    value: u64,
) -> Answer
    ensures { TakeResult (numbered_step rights.now number client value)
        (buffers state.old entries.old) result state.new entries.new }
{
    let planned = numbered(number, client, value);
    take(state, entries, rights, planned)
}
