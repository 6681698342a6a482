// What a run counts of a step's answer: an entry, a ledger number or a refusal.
ghost use Rattle.std.specs.Prelude.{◌≡◌};
ghost use Rattle.std.specs.Int.{from_bool};
ghost use Rattle.chain.specs.Answers.{is_refused};
ghost use Rattle.chain.specs.Plans.{is_entry};
ghost use Rattle.plans.specs.Numbers.{CountsLedgers};

use chain::answer::Answer;
use chain::kind::{Kind, UnknownStep};
use dispatch::Step;

pub fn is_entry(a: Answer) -> bool
    ensures { from_bool result ≡ is_entry a }
{
    matches!(a, Answer::Written(_))
}

// A done create has a ledger number.
pub fn is_ledger(planned: Result<Step, UnknownStep>, a: Answer) -> bool
    ensures { CountsLedgers planned a (from_bool result) }
{
    let Ok(step) = planned else {
        return false;
    };
    step.kind == Kind::Create && matches!(a, Answer::Done)
}

// Was closed and `behind` are none.
pub fn is_refusal(a: Answer) -> bool
    ensures { from_bool result ≡ is_refused a }
{
    matches!(a, Answer::Refused(_))
}
