// The steps, each under the rights that are passed with it.
ghost use Rattle.chain.specs.Operations.{buffers};
ghost use Rattle.chain.specs.Steps as kinds;
ghost use Rattle.chain.specs.Steps.{by};
ghost use Rattle.capi.specs.Calls.{StepCall};

#[unsafe(no_mangle)]
pub extern "C" fn cindrolf_name_with(
    state: &mut [u64],
    entries: &mut [u64],
    rights: &[u64],
    client: u64,
) -> u64
    ensures { StepCall (by rights.now client kinds.name)
        (buffers state.old entries.old) result state.new entries.new }
{
    capi::permitted::cindrolf_name_with(state, entries, rights, client)
}

#[unsafe(no_mangle)]
pub extern "C" fn cindrolf_become_with(
    state: &mut [u64],
    entries: &mut [u64],
    rights: &[u64],
    client: u64,
) -> u64
    ensures { StepCall (by rights.now client kinds.become)
        (buffers state.old entries.old) result state.new entries.new }
{
    capi::permitted::cindrolf_become_with(state, entries, rights, client)
}

#[unsafe(no_mangle)]
pub extern "C" fn cindrolf_abdicate_with(
    state: &mut [u64],
    entries: &mut [u64],
    rights: &[u64],
    client: u64,
) -> u64
    ensures { StepCall (by rights.now client kinds.abdicate)
        (buffers state.old entries.old) result state.new entries.new }
{
    capi::permitted::cindrolf_abdicate_with(state, entries, rights, client)
}

#[unsafe(no_mangle)]
pub extern "C" fn cindrolf_fetch_with(
    state: &mut [u64],
    entries: &mut [u64],
    rights: &[u64],
    client: u64,
) -> u64
    ensures { StepCall (by rights.now client kinds.fetch)
        (buffers state.old entries.old) result state.new entries.new }
{
    capi::permitted::cindrolf_fetch_with(state, entries, rights, client)
}

#[unsafe(no_mangle)]
pub extern "C" fn cindrolf_close_last_with(
    state: &mut [u64],
    entries: &mut [u64],
    rights: &[u64],
    client: u64,
) -> u64
    ensures { StepCall (by rights.now client kinds.close_last)
        (buffers state.old entries.old) result state.new entries.new }
{
    capi::permitted::cindrolf_close_last_with(state, entries, rights, client)
}

#[unsafe(no_mangle)]
pub extern "C" fn cindrolf_finish_with(
    state: &mut [u64],
    entries: &mut [u64],
    rights: &[u64],
    client: u64,
) -> u64
    ensures { StepCall (by rights.now client kinds.finish)
        (buffers state.old entries.old) result state.new entries.new }
{
    capi::permitted::cindrolf_finish_with(state, entries, rights, client)
}

#[unsafe(no_mangle)]
pub extern "C" fn cindrolf_create_with(
    state: &mut [u64],
    entries: &mut [u64],
    rights: &[u64],
    client: u64,
) -> u64
    ensures { StepCall (by rights.now client kinds.create)
        (buffers state.old entries.old) result state.new entries.new }
{
    capi::permitted::cindrolf_create_with(state, entries, rights, client)
}

#[unsafe(no_mangle)]
pub extern "C" fn cindrolf_append_with(
    state: &mut [u64],
    entries: &mut [u64],
    rights: &[u64],
    client: u64,
) -> u64
    ensures { StepCall (by rights.now client kinds.append)
        (buffers state.old entries.old) result state.new entries.new }
{
    capi::permitted::cindrolf_append_with(state, entries, rights, client)
}

#[unsafe(no_mangle)]
pub extern "C" fn cindrolf_write_with(
    state: &mut [u64],
    entries: &mut [u64],
    rights: &[u64],
    client: u64,
    value: u64,
) -> u64
    ensures { StepCall (by rights.now client (kinds.write (kinds.of_value value)))
        (buffers state.old entries.old) result state.new entries.new }
{
    capi::permitted::cindrolf_write_with(state, entries, rights, client, value)
}

#[unsafe(no_mangle)]
pub extern "C" fn cindrolf_write_scores_with(
    state: &mut [u64],
    entries: &mut [u64],
    rights: &[u64],
    client: u64,
    scores: &[u16],
) -> u64
    ensures { StepCall (by rights.now client (kinds.write (kinds.of_scores scores.now)))
        (buffers state.old entries.old) result state.new entries.new }
{
    capi::permitted::cindrolf_write_scores_with(state, entries, rights, client, scores)
}

#[unsafe(no_mangle)]
pub extern "C" fn cindrolf_close_own_with(
    state: &mut [u64],
    entries: &mut [u64],
    rights: &[u64],
    client: u64,
) -> u64
    ensures { StepCall (by rights.now client kinds.close_own)
        (buffers state.old entries.old) result state.new entries.new }
{
    capi::permitted::cindrolf_close_own_with(state, entries, rights, client)
}
