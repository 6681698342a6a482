// The log's kind of a step of the model, which has no code in common with the log.
use chain::kind::Kind;
use model::answer::Step;

// No From: the types are of chain and of model, and neither of the two rests on the other.
pub fn kind_of(step: Step) -> Kind {
    match step {
        Step::Name => Kind::Name,
        Step::Become => Kind::Become,
        Step::Abdicate => Kind::Abdicate,
        Step::Fetch => Kind::Fetch,
        Step::CloseLast => Kind::CloseLast,
        Step::Finish => Kind::Finish,
        Step::Create => Kind::Create,
        Step::Append => Kind::Append,
        Step::Write => Kind::Write,
        Step::CloseOwn => Kind::CloseOwn,
    }
}
