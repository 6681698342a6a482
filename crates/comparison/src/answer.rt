// An answer of the log or of the model, so that the two can be compared.
use chain::answer::Answer as LogAnswer;
use model::answer::{Answer, Refusal};

// What was answered, in the model's words. A refusal is its number in the reference, since the log has more of them than the model.
#[derive(Clone, Copy, Debug, PartialEq, Eq)]
pub struct Said(pub Result<Answer, u64>);

impl From<LogAnswer> for Said {
    fn from(answer: LogAnswer) -> Said {
        Said(match answer {
            LogAnswer::Done => Ok(Answer::Done),
            LogAnswer::WasClosed => Ok(Answer::WasClosed),
            LogAnswer::Behind => Ok(Answer::Behind),
            LogAnswer::Written(at) => Ok(Answer::Written {
                number: at.number.0,
                place: at.place.0,
            }),
            LogAnswer::Refused(r) => Err(u64::from(r)),
        })
    }
}

impl From<Result<Answer, Refusal>> for Said {
    fn from(answer: Result<Answer, Refusal>) -> Said {
        Said(answer.map_err(|r| r as u64))
    }
}
