// The log that is compared with the model: one step of it, by clients that have all rights.
use chain::answer::Answer;
use comparison::Comparison;
use dispatch::Step;
use model::answer::Asked;

// No From: the types are of dispatch and of model, and neither of the two rests on the other.
fn step_of(asked: Asked) -> Step {
    Step {
        client: asked.client,
        kind: comparison::kind::kind_of(asked.step),
        value: asked.value,
    }
}

pub fn take(both: &mut Comparison, asked: Asked) -> Answer {
    let rights = rights::all::all_of(&both.state);
    dispatch::check_and_take(&mut both.state, &mut both.entries, &rights, step_of(asked))
}
