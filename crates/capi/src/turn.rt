// What a controller of a shared log does next, and the id of a request.
ghost use Rattle.std.specs.Prelude.{◌≡◌};
ghost use Rattle.sharing.specs.Ids.{request_id};
ghost use Rattle.capi.specs.SharingCalls.{DecideCall};

use sharing::controller::Turn;

// The phase that follows, the awaited id, 0 where none is awaited, and what is to be done.
#[repr(C)]
#[derive(Clone, Copy, Debug, PartialEq, Eq)]
pub struct NextTurn {
    pub phase: u64,
    pub id: u64,
    pub act: u64,
}

impl From<Turn> for NextTurn {
    ghost use Rattle.sharing.specs.Numbers.{phase_number, phase_id, act_number};

    ghost from_gives = { λ turn next. (next.phase ≡ phase_number turn.phase)
        × ((next.id ≡ phase_id turn.phase) × (next.act ≡ act_number turn.act)) };

    fn from(turn: Turn) -> NextTurn {
        NextTurn {
            phase: turns::number::phase_number(turn.phase),
            id: turns::number::phase_id(turn.phase),
            act: u64::from(turn.act),
        }
    }
}

pub fn cindrolf_decide(phase: u64, id: u64, seen: u64, first: u64, second: u64) -> NextTurn
    ensures { DecideCall phase id seen first second result.phase result.id result.act }
{
    let before = turns::number::phase_of(phase, id);
    let sight = turns::number::seen_of(seen, first, second);
    let next = turns::decide(before, sight);
    NextTurn::from(next)
}

pub fn cindrolf_request_id(start: u64, count: u64) -> u64
    ensures { result ≡ request_id start count }
{
    turns::id::request_id(start, count)
}
