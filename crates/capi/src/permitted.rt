// The steps, each under the rights that are passed with it. One function for each, since C calls each by its name.
ghost use Rattle.chain.specs.Operations.{buffers};
ghost use Rattle.chain.specs.Steps as kinds;
ghost use Rattle.chain.specs.Steps.{by};
ghost use Rattle.dispatch.specs.Dispatch.{step_of};
ghost use Rattle.capi.specs.Calls.{StepCall};

use chain::kind::Kind;
use dispatch::Step;

pub fn take_numbered(state: &mut [u64], entries: &mut [u64], rights: &[u64], step: Step) -> u64
    ensures { StepCall (step_of rights.now step)
        (buffers state.old entries.old) result state.new entries.new }
{
    let a = dispatch::check_and_take(state, entries, rights, step);
    crate::number::answer_number(a)
}

pub fn take_scores(
    state: &mut [u64],
    entries: &mut [u64],
    rights: &[u64],
    client: u64,
    scores: &[u16],
) -> u64
    ensures { StepCall (by rights.now client (kinds.write (kinds.of_scores scores.now)))
        (buffers state.old entries.old) result state.new entries.new }
{
    let a = dispatch::write_scores::write_scores(state, entries, rights, client, scores);
    crate::number::answer_number(a)
}

pub fn cindrolf_name_with(
    state: &mut [u64],
    entries: &mut [u64],
    rights: &[u64],
    client: u64,
) -> u64
    ensures { StepCall (by rights.now client kinds.name)
        (buffers state.old entries.old) result state.new entries.new }
{
    take_numbered(state, entries, rights, Step::new(client, Kind::Name))
}

pub fn cindrolf_become_with(
    state: &mut [u64],
    entries: &mut [u64],
    rights: &[u64],
    client: u64,
) -> u64
    ensures { StepCall (by rights.now client kinds.become)
        (buffers state.old entries.old) result state.new entries.new }
{
    take_numbered(state, entries, rights, Step::new(client, Kind::Become))
}

pub fn cindrolf_abdicate_with(
    state: &mut [u64],
    entries: &mut [u64],
    rights: &[u64],
    client: u64,
) -> u64
    ensures { StepCall (by rights.now client kinds.abdicate)
        (buffers state.old entries.old) result state.new entries.new }
{
    take_numbered(state, entries, rights, Step::new(client, Kind::Abdicate))
}

pub fn cindrolf_fetch_with(
    state: &mut [u64],
    entries: &mut [u64],
    rights: &[u64],
    client: u64,
) -> u64
    ensures { StepCall (by rights.now client kinds.fetch)
        (buffers state.old entries.old) result state.new entries.new }
{
    take_numbered(state, entries, rights, Step::new(client, Kind::Fetch))
}

pub fn cindrolf_close_last_with(
    state: &mut [u64],
    entries: &mut [u64],
    rights: &[u64],
    client: u64,
) -> u64
    ensures { StepCall (by rights.now client kinds.close_last)
        (buffers state.old entries.old) result state.new entries.new }
{
    take_numbered(state, entries, rights, Step::new(client, Kind::CloseLast))
}

pub fn cindrolf_finish_with(
    state: &mut [u64],
    entries: &mut [u64],
    rights: &[u64],
    client: u64,
) -> u64
    ensures { StepCall (by rights.now client kinds.finish)
        (buffers state.old entries.old) result state.new entries.new }
{
    take_numbered(state, entries, rights, Step::new(client, Kind::Finish))
}

pub fn cindrolf_create_with(
    state: &mut [u64],
    entries: &mut [u64],
    rights: &[u64],
    client: u64,
) -> u64
    ensures { StepCall (by rights.now client kinds.create)
        (buffers state.old entries.old) result state.new entries.new }
{
    take_numbered(state, entries, rights, Step::new(client, Kind::Create))
}

pub fn cindrolf_append_with(
    state: &mut [u64],
    entries: &mut [u64],
    rights: &[u64],
    client: u64,
) -> u64
    ensures { StepCall (by rights.now client kinds.append)
        (buffers state.old entries.old) result state.new entries.new }
{
    take_numbered(state, entries, rights, Step::new(client, Kind::Append))
}

pub fn cindrolf_write_with(
    state: &mut [u64],
    entries: &mut [u64],
    rights: &[u64],
    client: u64,
    value: u64,
) -> u64
    ensures { StepCall (by rights.now client (kinds.write (kinds.of_value value)))
        (buffers state.old entries.old) result state.new entries.new }
{
    take_numbered(state, entries, rights, Step::write(client, value))
}

pub fn cindrolf_write_scores_with(
    state: &mut [u64],
    entries: &mut [u64],
    rights: &[u64],
    client: u64,
    scores: &[u16],
) -> u64
    ensures { StepCall (by rights.now client (kinds.write (kinds.of_scores scores.now)))
        (buffers state.old entries.old) result state.new entries.new }
{
    take_scores(state, entries, rights, client, scores)
}

pub fn cindrolf_close_own_with(
    state: &mut [u64],
    entries: &mut [u64],
    rights: &[u64],
    client: u64,
) -> u64
    ensures { StepCall (by rights.now client kinds.close_own)
        (buffers state.old entries.old) result state.new entries.new }
{
    take_numbered(state, entries, rights, Step::new(client, Kind::CloseOwn))
}
