// One step on the log, by a client that has all rights, and then on the model, with the answers and every word of both buffers compared.
use chain::answer::Answer;
use comparison::Comparison;
use model::answer::{Asked, Step};

// Two arms, since `steps` has two functions for them: a write brings its value, and every other step is taken by its kind.
fn take_on_log(both: &mut Comparison, asked: Asked) -> Answer {
    let rights = all_rights(both);
    let client = asked.client;
    let state = &mut both.state;
    let entries = &mut both.entries;
    match asked.step {
        Step::Write => steps::write::write(state, entries, &rights, client, asked.value),
        step => steps::take::take(
            state,
            entries,
            &rights,
            client,
            comparison::kind::kind_of(step),
        ),
    }
}

// The rights of clients that have all of them.
pub fn all_rights(both: &Comparison) -> [u64; rights::LENGTH] {
    rights::all::all_of(&both.state)
}

// The model's answer is compared with that of the log; the program prints the log's.
pub fn take(both: &mut Comparison, asked: Asked) -> Answer {
    let answer = take_on_log(both, asked);
    let _ = both.follow(asked, answer);
    answer
}

pub fn begin(both: &mut Comparison, clients: u64) -> Answer {
    let answer = fresh::fresh(&mut both.state, &mut both.entries, clients);
    both.begin(clients, answer);
    answer
}

// A step without a value, and a write.
pub fn asked(step: Step, client: u64) -> Asked {
    Asked {
        step,
        client,
        value: 0,
    }
}

pub fn write(client: u64, value: u64) -> Asked {
    Asked {
        step: Step::Write,
        client,
        value,
    }
}
