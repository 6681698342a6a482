// The id of a request: the number that its controller drew from the engine when it started, and its count of requests since.
ghost use Rattle.std.specs.Prelude.{◌≡◌};
ghost use Rattle.sharing.specs.Ids.{request_id};

const HALF: u64 = 1 << 32;

// 0, which is no id, where the start has no number or one of the two has no room in its 32 bits. It is a number and no Option,
// since `cindrolf_request_id` gives C this number, and `IdsPromise.IdsDiffer` says of it that it is not 0.
pub fn request_id(start: u64, count: u64) -> u64
    ensures { result ≡ request_id start count }
{
    if 0 < start && start < HALF && count < HALF {
        start * HALF + count
    } else {
        0
    }
}
