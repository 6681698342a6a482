// What a controller of a shared log does next, and the id of a request.
ghost use Rattle.std.specs.Prelude.{◌≡◌};
ghost use Rattle.sharing.specs.Ids.{request_id};
ghost use Rattle.capi.specs.SharingCalls.{DecideCall};

use capi::turn::NextTurn;

#[unsafe(no_mangle)]
pub extern "C" fn cindrolf_decide(
    phase: u64,
    id: u64,
    seen: u64,
    first: u64,
    second: u64,
) -> NextTurn
    ensures { DecideCall phase id seen first second result.phase result.id result.act }
{
    capi::turn::cindrolf_decide(phase, id, seen, first, second)
}

#[unsafe(no_mangle)]
pub extern "C" fn cindrolf_request_id(start: u64, count: u64) -> u64
    ensures { result ≡ request_id start count }
{
    capi::turn::cindrolf_request_id(start, count)
}
