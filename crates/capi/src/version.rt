// The number of the interface. It increases with every change that a caller has to follow.
ghost use Rattle.std.specs.Prelude.{◌≡◌};
ghost use Rattle.capi.specs.Calls.{interface_version};

const VERSION: u64 = 3;

pub fn cindrolf_version() -> u64
    ensures { result ≡ interface_version }
{
    VERSION
}
