// What a controller of a shared log does next: a pure decision, which the drivers of the engines call. A driver does all reading and writing.
#![tactic(auto)]

pub mod id;
pub mod number;

ghost use Rattle.std.specs.Prelude.{◌≡◌};
ghost use Rattle.sharing.specs.Turns.{to, turn};

use sharing::controller::{Act, Phase, Seen, Turn};

fn to(phase: Phase, act: Act) -> Turn
    ensures { result ≡ to phase act }
{
    Turn { phase, act }
}

// What follows each phase on each thing seen.
pub fn decide(phase: Phase, seen: Seen) -> Turn
    ensures { result ≡ turn phase seen }
{
    match (phase, seen) {
        (Phase::Idle, Seen::Asked) => to(Phase::Asked, Act::Try),
        (Phase::Idle, Seen::OtherHistory) => to(Phase::Halted, Act::Nothing),
        (Phase::Idle, _) => to(Phase::Idle, Act::Nothing),

        // An id of 0 is none, and without an id nothing is sent.
        (Phase::Asked | Phase::Current, Seen::Accepted(0)) => to(Phase::Idle, Act::Withdraw),
        (Phase::Asked | Phase::Current, Seen::Accepted(id)) => to(Phase::Waiting(id), Act::Append),
        (Phase::Asked | Phase::Current, Seen::Stop) => to(Phase::Idle, Act::Withdraw),
        (Phase::Asked | Phase::Current, Seen::OtherHistory) => to(Phase::Halted, Act::Withdraw),

        // A refusal counts only once the rows were read after the asking.
        (Phase::Asked, Seen::Read(_)) => to(Phase::Current, Act::Try),
        (Phase::Asked, _) => to(Phase::Asked, Act::Read),
        (Phase::Current, Seen::Refused) => to(Phase::Idle, Act::Refuse),
        (Phase::Current, _) => to(Phase::Current, Act::Try),

        // The row that comes next is the controller's own, or another's.
        (Phase::Waiting(id), Seen::Next(_, there)) if there == id => to(Phase::Idle, Act::Tell),
        (Phase::Waiting(id), Seen::Next(_, _)) => to(Phase::Waiting(id), Act::Read),

        // Where rows came in between, the answer is not the one that the copy gives: they are read first.
        (Phase::Waiting(id), Seen::Placed(known, place)) if known < place => {
            to(Phase::Waiting(id), Act::Read)
        }
        (Phase::Waiting(_), Seen::Placed(_, _)) => to(Phase::Idle, Act::Tell),
        (Phase::Waiting(_), Seen::Stop) => to(Phase::Idle, Act::Unknown),
        (Phase::Waiting(_), Seen::OtherHistory) => to(Phase::Halted, Act::Unknown),
        (Phase::Waiting(id), _) => to(Phase::Waiting(id), Act::Append),

        // It has seen another history, and does nothing until it starts again.
        (Phase::Halted, Seen::Asked) => to(Phase::Halted, Act::Withdraw),
        (Phase::Halted, _) => to(Phase::Halted, Act::Nothing),
    }
}
