// The steps of the longer examples, by their numbers from 1.
use crate::beside::{asked, take, write};
use chain::answer::Answer;
use comparison::Comparison;
use model::answer::{Asked, Step};
use std::ops::RangeInclusive;

// Takes the steps of a script by their numbers. It answers what the last of them answered.
pub fn play<F: Fn(u64) -> Asked>(
    both: &mut Comparison,
    script: F,
    numbers: RangeInclusive<u64>,
) -> Answer
    requires { F.IsAlwaysCallable script }
{
    let mut answer = Answer::Done;
    for n in numbers {
        answer = take(both, script(n));
    }
    answer
}

// The reference's example session: after its line 4 client 0 leads and has its ledger listed.
pub fn session_step(line: u64) -> Asked {
    match line {
        1 => asked(Step::Become, 0),
        2 => asked(Step::Fetch, 0),
        3 => asked(Step::Create, 0),
        4 => asked(Step::Append, 0),
        5 => write(0, 7),
        6 => asked(Step::Name, 1),
        7 => asked(Step::Become, 1),
        8 => asked(Step::Fetch, 1),
        9 => asked(Step::CloseLast, 1),
        10 => asked(Step::Finish, 1),
        11 => write(0, 8),
        12 => asked(Step::Create, 1),
        13 => asked(Step::Append, 1),
        14 => write(1, 9),
        _ => asked(Step::CloseOwn, 0),
    }
}

// From then on, one ledger after another: an entry, the ledger closed, the next created and listed.
pub fn ledger_step(n: u64) -> Asked {
    match n % 4 {
        1 => write(0, 0),
        2 => asked(Step::CloseOwn, 0),
        3 => asked(Step::Create, 0),
        _ => asked(Step::Append, 0),
    }
}

// Or one entry after another, each with its own number as the value.
pub fn entry_step(n: u64) -> Asked {
    write(0, n.wrapping_sub(1))
}
