// The steps, each under all ten rights of every client. One function for each, since C calls each by its name.
ghost use Rattle.chain.specs.Operations.{buffers};
ghost use Rattle.chain.specs.Steps as kinds;
ghost use Rattle.chain.specs.Steps.{by};
ghost use Rattle.dispatch.specs.Dispatch.{step_of};
ghost use Rattle.capi.specs.Calls.{StepCall, all_of};

use chain::kind::Kind;
use dispatch::Step;

fn take_with_all_rights(state: &mut [u64], entries: &mut [u64], step: Step) -> u64
    ensures { StepCall (step_of (all_of state.old) step)
        (buffers state.old entries.old) result state.new entries.new }
{
    let rights = rights::all::all_of(state);
    crate::permitted::take_numbered(state, entries, &rights, step)
}

pub fn cindrolf_name(state: &mut [u64], entries: &mut [u64], client: u64) -> u64
    ensures { StepCall (by (all_of state.old) client kinds.name)
        (buffers state.old entries.old) result state.new entries.new }
{
    take_with_all_rights(state, entries, Step::new(client, Kind::Name))
}

pub fn cindrolf_become(state: &mut [u64], entries: &mut [u64], client: u64) -> u64
    ensures { StepCall (by (all_of state.old) client kinds.become)
        (buffers state.old entries.old) result state.new entries.new }
{
    take_with_all_rights(state, entries, Step::new(client, Kind::Become))
}

pub fn cindrolf_abdicate(state: &mut [u64], entries: &mut [u64], client: u64) -> u64
    ensures { StepCall (by (all_of state.old) client kinds.abdicate)
        (buffers state.old entries.old) result state.new entries.new }
{
    take_with_all_rights(state, entries, Step::new(client, Kind::Abdicate))
}

pub fn cindrolf_fetch(state: &mut [u64], entries: &mut [u64], client: u64) -> u64
    ensures { StepCall (by (all_of state.old) client kinds.fetch)
        (buffers state.old entries.old) result state.new entries.new }
{
    take_with_all_rights(state, entries, Step::new(client, Kind::Fetch))
}

pub fn cindrolf_close_last(state: &mut [u64], entries: &mut [u64], client: u64) -> u64
    ensures { StepCall (by (all_of state.old) client kinds.close_last)
        (buffers state.old entries.old) result state.new entries.new }
{
    take_with_all_rights(state, entries, Step::new(client, Kind::CloseLast))
}

pub fn cindrolf_finish(state: &mut [u64], entries: &mut [u64], client: u64) -> u64
    ensures { StepCall (by (all_of state.old) client kinds.finish)
        (buffers state.old entries.old) result state.new entries.new }
{
    take_with_all_rights(state, entries, Step::new(client, Kind::Finish))
}

pub fn cindrolf_create(state: &mut [u64], entries: &mut [u64], client: u64) -> u64
    ensures { StepCall (by (all_of state.old) client kinds.create)
        (buffers state.old entries.old) result state.new entries.new }
{
    take_with_all_rights(state, entries, Step::new(client, Kind::Create))
}

pub fn cindrolf_append(state: &mut [u64], entries: &mut [u64], client: u64) -> u64
    ensures { StepCall (by (all_of state.old) client kinds.append)
        (buffers state.old entries.old) result state.new entries.new }
{
    take_with_all_rights(state, entries, Step::new(client, Kind::Append))
}

pub fn cindrolf_write(state: &mut [u64], entries: &mut [u64], client: u64, value: u64) -> u64
    ensures { StepCall (by (all_of state.old) client (kinds.write (kinds.of_value value)))
        (buffers state.old entries.old) result state.new entries.new }
{
    take_with_all_rights(state, entries, Step::write(client, value))
}

pub fn cindrolf_write_scores(
    state: &mut [u64],
    entries: &mut [u64],
    client: u64,
    scores: &[u16],
) -> u64
    ensures { StepCall
        (by (all_of state.old) client (kinds.write (kinds.of_scores scores.now)))
        (buffers state.old entries.old) result state.new entries.new }
{
    let rights = rights::all::all_of(state);
    crate::permitted::take_scores(state, entries, &rights, client, scores)
}

pub fn cindrolf_close_own(state: &mut [u64], entries: &mut [u64], client: u64) -> u64
    ensures { StepCall (by (all_of state.old) client kinds.close_own)
        (buffers state.old entries.old) result state.new entries.new }
{
    take_with_all_rights(state, entries, Step::new(client, Kind::CloseOwn))
}
