// The phases and the events as numbers, since no enum crosses the C boundary. An act has its number by `u64::from`.
// A phase is two numbers and what is seen is three, each total for `cindrolf_decide`: so these four are functions, and not From.
ghost use Rattle.std.specs.Prelude.{◌≡◌};
ghost use Rattle.sharing.specs.Numbers.{phase_number, phase_id, phase_of, seen_of};

use sharing::controller::{Phase, Seen};

pub fn phase_number(phase: Phase) -> u64
    ensures { result ≡ phase_number phase }
{
    match phase {
        Phase::Idle => 0,
        Phase::Asked => 1,
        Phase::Current => 2,
        Phase::Waiting(_) => 3,
        Phase::Halted => 4,
    }
}

pub fn phase_id(phase: Phase) -> u64
    ensures { result ≡ phase_id phase }
{
    match phase {
        Phase::Waiting(id) => id,
        _ => 0,
    }
}

// A number of no phase is taken as halted, in which nothing is done.
pub fn phase_of(number: u64, id: u64) -> Phase
    ensures { result ≡ phase_of number id }
{
    match number {
        0 => Phase::Idle,
        1 => Phase::Asked,
        2 => Phase::Current,
        3 => Phase::Waiting(id),
        _ => Phase::Halted,
    }
}

// A number of nothing seen is taken as silence, which is always true.
pub fn seen_of(number: u64, first: u64, second: u64) -> Seen
    ensures { result ≡ seen_of number first second }
{
    match number {
        0 => Seen::Asked,
        1 => Seen::Read(first),
        2 => Seen::Next(first, second),
        3 => Seen::Placed(first, second),
        4 => Seen::Accepted(first),
        5 => Seen::Refused,
        6 => Seen::Silence,
        7 => Seen::Stop,
        8 => Seen::OtherHistory,
        _ => Seen::Silence,
    }
}
