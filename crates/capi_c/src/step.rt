// The steps, each under all ten rights of every client.
ghost use Rattle.chain.specs.Operations.{buffers};
ghost use Rattle.chain.specs.Steps as kinds;
ghost use Rattle.chain.specs.Steps.{by};
ghost use Rattle.capi.specs.Calls.{StepCall, all_of};

#[unsafe(no_mangle)]
pub extern "C" fn cindrolf_name(state: &mut [u64], entries: &mut [u64], client: u64) -> u64
    ensures { StepCall (by (all_of state.old) client kinds.name)
        (buffers state.old entries.old) result state.new entries.new }
{
    capi::step::cindrolf_name(state, entries, client)
}

#[unsafe(no_mangle)]
pub extern "C" fn cindrolf_become(state: &mut [u64], entries: &mut [u64], client: u64) -> u64
    ensures { StepCall (by (all_of state.old) client kinds.become)
        (buffers state.old entries.old) result state.new entries.new }
{
    capi::step::cindrolf_become(state, entries, client)
}

#[unsafe(no_mangle)]
pub extern "C" fn cindrolf_abdicate(state: &mut [u64], entries: &mut [u64], client: u64) -> u64
    ensures { StepCall (by (all_of state.old) client kinds.abdicate)
        (buffers state.old entries.old) result state.new entries.new }
{
    capi::step::cindrolf_abdicate(state, entries, client)
}

#[unsafe(no_mangle)]
pub extern "C" fn cindrolf_fetch(state: &mut [u64], entries: &mut [u64], client: u64) -> u64
    ensures { StepCall (by (all_of state.old) client kinds.fetch)
        (buffers state.old entries.old) result state.new entries.new }
{
    capi::step::cindrolf_fetch(state, entries, client)
}

#[unsafe(no_mangle)]
pub extern "C" fn cindrolf_close_last(state: &mut [u64], entries: &mut [u64], client: u64) -> u64
    ensures { StepCall (by (all_of state.old) client kinds.close_last)
        (buffers state.old entries.old) result state.new entries.new }
{
    capi::step::cindrolf_close_last(state, entries, client)
}

#[unsafe(no_mangle)]
pub extern "C" fn cindrolf_finish(state: &mut [u64], entries: &mut [u64], client: u64) -> u64
    ensures { StepCall (by (all_of state.old) client kinds.finish)
        (buffers state.old entries.old) result state.new entries.new }
{
    capi::step::cindrolf_finish(state, entries, client)
}

#[unsafe(no_mangle)]
pub extern "C" fn cindrolf_create(state: &mut [u64], entries: &mut [u64], client: u64) -> u64
    ensures { StepCall (by (all_of state.old) client kinds.create)
        (buffers state.old entries.old) result state.new entries.new }
{
    capi::step::cindrolf_create(state, entries, client)
}

#[unsafe(no_mangle)]
pub extern "C" fn cindrolf_append(state: &mut [u64], entries: &mut [u64], client: u64) -> u64
    ensures { StepCall (by (all_of state.old) client kinds.append)
        (buffers state.old entries.old) result state.new entries.new }
{
    capi::step::cindrolf_append(state, entries, client)
}

#[unsafe(no_mangle)]
pub extern "C" fn cindrolf_write(
    state: &mut [u64],
    entries: &mut [u64],
    client: u64,
    value: u64,
) -> u64
    ensures { StepCall (by (all_of state.old) client (kinds.write (kinds.of_value value)))
        (buffers state.old entries.old) result state.new entries.new }
{
    capi::step::cindrolf_write(state, entries, client, value)
}

#[unsafe(no_mangle)]
pub extern "C" fn cindrolf_write_scores(
    state: &mut [u64],
    entries: &mut [u64],
    client: u64,
    scores: &[u16],
) -> u64
    ensures { StepCall
        (by (all_of state.old) client (kinds.write (kinds.of_scores scores.now)))
        (buffers state.old entries.old) result state.new entries.new }
{
    capi::step::cindrolf_write_scores(state, entries, client, scores)
}

#[unsafe(no_mangle)]
pub extern "C" fn cindrolf_close_own(state: &mut [u64], entries: &mut [u64], client: u64) -> u64
    ensures { StepCall (by (all_of state.old) client kinds.close_own)
        (buffers state.old entries.old) result state.new entries.new }
{
    capi::step::cindrolf_close_own(state, entries, client)
}
