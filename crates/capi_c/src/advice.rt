// The adviser.
ghost use Rattle.std.specs.Prelude.{◌≡◌};
ghost use Rattle.chain.specs.Adviser.{adviser};
ghost use Rattle.chain.specs.Answers.{advice_number};
ghost use Rattle.chain.specs.Operations.{buffers};

#[unsafe(no_mangle)]
pub extern "C" fn cindrolf_advise(state: &[u64], entries: &[u64], client: u64) -> u64
    ensures { result ≡ advice_number (adviser client (buffers state.now entries.now)) }
{
    capi::advice::cindrolf_advise(state, entries, client)
}
