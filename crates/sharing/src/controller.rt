// A controller of a shared log: its phase, the events, and what to do next.

#[derive(Clone, Copy, Debug, PartialEq, Eq)]
pub enum Phase {
    // It has nothing to do.
    Idle,
    // It was asked for a request.
    Asked,
    // It was asked, and has read the rows since.
    Current,
    // It has sent the append with this id, and has no answer to give yet.
    Waiting(u64),
    // The engine has another history than the one that it knows: it stops until it is started again.
    Halted,
}

#[derive(Clone, Copy, Debug, PartialEq, Eq)]
pub enum Seen {
    // Somebody asks for a request.
    Asked,
    // A read that began after the latest turn is over: so many rows are known now. None of those that are new has the awaited id.
    Read(u64),
    // A read has come to a row, after so many that are known now, with this id.
    Next(u64, u64),
    // The engine's reply to the append: so many rows are known, and the row is at this place.
    Placed(u64, u64),
    // The request is accepted on the copy. The id is one that no append ever had, or 0 where there is none: no Option, since `Turns.turn` and
    // `Driving.lacks-id` speak of that 0, and `Numbers.seen_of` makes it of the number that C passes.
    Accepted(u64),
    // The request is refused on the copy, each of its steps.
    Refused,
    // No reply came.
    Silence,
    // The one who asked waits no longer.
    Stop,
    // The engine's rows are not those that are known.
    OtherHistory,
}

#[derive(Clone, Copy, Debug, PartialEq, Eq)]
pub enum Act {
    Nothing = 0,
    // Read the rows after those known, and take their steps on the copy; but not past a row with the awaited id.
    Read = 1,
    // Take the request on the copy, and take it back: what is stored comes by reading.
    Try = 2,
    // Send the append that the phase names, the first time or again.
    Append = 3,
    // Take the request on the copy, for good, and give its answers.
    Tell = 4,
    // Give the refusals.
    Refuse = 5,
    // Say that the request was not taken, and never will be.
    Withdraw = 6,
    // Say that it is unknown whether the request was or will be taken.
    Unknown = 7,
}

// Its number, as it crosses the C boundary.
impl From<Act> for u64 {
    ghost use Rattle.std.specs.Prelude.{◌≡◌};
    ghost use Rattle.sharing.specs.Numbers.{act_number};

    ghost from_gives = { λ act number. number ≡ act_number act };

    fn from(act: Act) -> u64 {
        act as u64
    }
}

#[derive(Clone, Copy, Debug, PartialEq, Eq)]
pub struct Turn {
    pub phase: Phase,
    pub act: Act,
}
