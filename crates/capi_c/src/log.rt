// A fresh log, and whether two buffers hold a log.
ghost use Rattle.std.specs.Prelude.{◌≡◌};
ghost use Rattle.checks.specs.Test.{test};
ghost use Rattle.chain.specs.Operations.{buffers};
ghost use Rattle.wellformed.specs.Parts.{log_test};
ghost use Rattle.capi.specs.Calls.{FreshCall};

#[unsafe(no_mangle)]
pub extern "C" fn cindrolf_fresh(state: &mut [u64], entries: &mut [u64], clients: u64) -> u64
    ensures { FreshCall clients (buffers state.old entries.old) result state.new entries.new }
{
    capi::log::cindrolf_fresh(state, entries, clients)
}

#[unsafe(no_mangle)]
pub extern "C" fn cindrolf_well_formed(state: &[u64], entries: &[u64]) -> bool
    ensures { result ≡ test (log_test (buffers state.now entries.now)) }
{
    capi::log::cindrolf_well_formed(state, entries)
}
