// The number of the interface. It increases with every change that a caller has to follow.
ghost use Rattle.std.specs.Prelude.{◌≡◌};
ghost use Rattle.capi.specs.Calls.{interface_version};

#[unsafe(no_mangle)]
pub extern "C" fn cindrolf_version() -> u64
    ensures { result ≡ interface_version }
{
    capi::version::cindrolf_version()
}
