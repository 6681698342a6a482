// The sum of the parts of a list of scores, or why there is none.
ghost use Rattle.std.specs.Prelude.{◌≡◌, ◌+◌, ◌*◌, ◌^◌, ◌<◌, length};
ghost use Rattle.scores.specs.Scores.{sum_of};
ghost use Rattle.scores.specs.AddingLaws.{part_of, sum_from};

use limits::{SCORE_LIMIT, SCORES_LIMIT};
use std::error::Error;
use std::fmt;

// Why a list has no sum: no scores or more than the limit, or a score above the highest.
#[derive(Clone, Copy, Debug, PartialEq, Eq, Drop)]
pub enum SumError {
    WrongCount,
    ScoreTooHigh,
}

impl fmt::Display for SumError {
    fn fmt<W: fmt::Write>(&self, f: &mut fmt::Formatter<W>) -> fmt::Result {
        match self {
            SumError::WrongCount => write!(f, "no scores, or too many"),
            SumError::ScoreTooHigh => write!(f, "a score above the highest"),
        }
    }
}

impl Error for SumError {}

// The part of a score, which none above the highest has.
#[tactic(auto, unfolding(crate::specs::AddingLaws::part_of))]
fn part_of(q: u16) -> Result<u64, SumError>
    ensures { result ≡ part_of q }
{
    if SCORE_LIMIT < q {
        return Err(SumError::ScoreTooHigh);
    }
    Ok(crate::table::part(q))
}

// The parts of some scores, added to a sum.
fn add(sum: u64, scores: &[u16]) -> Result<u64, SumError>
    requires { sum + length scores.now * 10 ^ 12 < 2 ^ 64 }
    ensures { result ≡ sum_from sum scores.now }
{
    let mut sum = sum;
    for &q in scores {
        sum += part_of(q)?;
    }
    Ok(sum)
}

// In parts of 10^-12. Four scores a turn: one a turn takes 1.45 of the instructions for 4,000 scores, and longer yet where the linker puts
// the loop across two lines of 64 bytes.
pub fn sum_of(scores: &[u16]) -> Result<u64, SumError>
    ensures { result ≡ sum_of scores.now }
{
    if scores.is_empty() {
        return Err(SumError::WrongCount);
    }
    if SCORES_LIMIT < scores.len() {
        return Err(SumError::WrongCount);
    }
    let mut sum = 0;
    let mut rest = scores;
    while let Some((four, more)) = rest.split_first_chunk::<4>() {
        sum = add(sum, four)?;
        rest = more;
    }
    add(sum, rest)
}
