// What the program prints.
use chain::answer::Answer;
use comparison::Comparison;
use std::{fmt, io};

// An answer as a session words it. The session itself puts the words into a text, by `replies::reply`; this program uses no code of it.
#[derive(Clone, Copy, Debug, PartialEq, Eq)]
struct Worded(Answer);

impl fmt::Display for Worded {
    fn fmt<W: fmt::Write>(&self, f: &mut fmt::Formatter<W>) -> fmt::Result {
        match self.0 {
            Answer::Done => write!(f, "ok"),
            Answer::WasClosed => write!(f, "was"),
            Answer::Behind => write!(f, "behind"),
            Answer::Written(at) => write!(f, "entry {} place {}", at.number.0, at.place.0),
            Answer::Refused(r) => write!(f, "ref {}", u64::from(r)),
        }
    }
}

pub fn say_line(
    rt: &impl Print,
    label: impl fmt::Display + Drop,
    answer: Answer,
) -> io::Result<()> {
    println!(rt; "{label} {}", Worded(answer))
}

// How many steps the model took beside the log, and whether anything differed.
pub fn say_difference(rt: &impl Print, both: &Comparison) -> io::Result<()> {
    println!(rt; "beside the model {}", both.steps)?;
    match both.difference {
        None => println!(rt; "no difference"),
        Some(found) => {
            println!(rt;
                "difference in history {} after step {}",
                found.history, found.step
            )
        }
    }
}
