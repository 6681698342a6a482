// A step by its number: one function for all kinds, under the rights that are passed or under all.
ghost use Rattle.chain.specs.Operations.{buffers};
ghost use Rattle.chain.specs.Plans.{numbered_step};
ghost use Rattle.capi.specs.Calls.{TakeCall, all_of};

pub fn cindrolf_take_with(
    state: &mut [u64],
    entries: &mut [u64],
    rights: &[u64],
    step: u64,
    client: u64,
    value: u64,
) -> u64
    ensures { TakeCall (numbered_step rights.now step client value)
        (buffers state.old entries.old) result state.new entries.new }
{
    let a = plans::number::take_by_number(state, entries, rights, step, client, value);
    crate::number::answer_number(a)
}

pub fn cindrolf_take(
    state: &mut [u64],
    entries: &mut [u64],
    step: u64,
    client: u64,
    value: u64,
) -> u64
    ensures { TakeCall (numbered_step (all_of state.old) step client value)
        (buffers state.old entries.old) result state.new entries.new }
{
    let rights = rights::all::all_of(state);
    cindrolf_take_with(state, entries, &rights, step, client, value)
}
