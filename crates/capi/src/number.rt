// An answer and an advice as one number, since no enum crosses the boundary. No From: the types on both sides are of other
// crates, and `answer_number` asks for `NumbersBelow`.
ghost use Rattle.std.specs.Prelude.{◌≡◌, MatchResult};
ghost use Rattle.chain.specs.Answers.{answer_number, advice_number, done, refused, refusal_number};
ghost use Rattle.chain.specs.NumberSizes.{NumbersBelow};

use chain::answer::{Answer, Refusal};
use chain::kind::Kind;

const REFUSED: u64 = 256;

// An entry's answer is ENTRY + its number × NUMBER_UNIT + its place in its ledger.
const ENTRY: u64 = 1 << 32;

const NUMBER_UNIT: u64 = 1 << 16;

// The advice that there is no step to take.
const NO_STEP: u64 = 15;

pub fn answer_number(a: Answer) -> u64
    requires { NumbersBelow a }
    ensures { result ≡ answer_number a }
{
    match a {
        Answer::Done => 0,
        Answer::WasClosed => 1,
        Answer::Behind => 2,
        Answer::Refused(r) => REFUSED + u64::from(r),
        Answer::Written(at) => ENTRY + (at.number.0 * NUMBER_UNIT + at.place.0),
    }
}

// Whether an operation that answers more than a number was done, or its refusal.
pub fn status<T>(r: &Result<T, Refusal>) -> u64
    ensures { MatchResult r.now (λ _. result ≡ done) (λ why. result ≡ refused (refusal_number why)) }
{
    match r {
        Ok(_) => answer_number(Answer::Done),
        Err(why) => answer_number(Answer::Refused(*why)),
    }
}

// A step is its place in the reference's order of steps.
pub fn advice_number(advice: Result<Option<Kind>, Refusal>) -> u64
    ensures { result ≡ advice_number advice }
{
    match advice {
        Ok(Some(kind)) => u64::from(kind),
        Ok(None) => NO_STEP,
        Err(r) => REFUSED + u64::from(r),
    }
}
