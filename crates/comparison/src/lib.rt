// Compares a log with the model of LedgerChaining: the answer of each step, and after it every word of both buffers.
#![tactic(auto)]

pub mod answer;
pub mod buffers;
pub mod difference;
pub mod kind;

use crate::answer::Said;
use crate::buffers::{Entries, State};
use crate::difference::{Difference, What};
use model::answer::{Answer, Asked, Refusal};
use model::pack::WORDS;
use model::variables::{ENTRIES, LedgerChaining};

// A log beside the model, the progress, and the first difference.
#[derive(Debug, PartialEq, Eq, Drop)]
pub struct Comparison {
    pub state: State,
    pub entries: Entries,
    pub model: LedgerChaining,
    // The histories and steps so far, and how many words of the buffers were compared.
    pub histories: u64,
    pub steps: u64,
    pub words: u64,
    // The step of the history that is taken, from 1.
    pub step: u64,
    pub difference: Option<Difference>,
}

impl Comparison {
    pub fn new() -> Comparison {
        Comparison {
            state: [0; WORDS],
            entries: [0; ENTRIES],
            model: LedgerChaining::new(0),
            histories: 0,
            steps: 0,
            words: 0,
            step: 0,
            difference: None,
        }
    }

    pub fn expect(&mut self, same: bool, what: What) {
        if !same {
            self.note(what);
        }
    }

    // Only the first difference is kept.
    pub fn note(&mut self, what: What) {
        self.difference.get_or_insert(Difference {
            what,
            history: self.histories,
            step: self.step,
        });
    }

    // A fresh log, and what fresh answered, beside the first state of LedgerChaining.
    pub fn begin(&mut self, clients: u64, answer: chain::answer::Answer) {
        self.histories = self.histories.saturating_add(1);
        self.step = 0;
        self.model = LedgerChaining::new(clients);
        self.expect(
            Said::from(answer) == Said(Ok(Answer::Done)),
            What::Answer(0),
        );
        self.compare_buffers();
    }

    // The log has taken the step and answered. The model takes it too, and its answer is handed back.
    pub fn follow(
        &mut self,
        asked: Asked,
        answer: chain::answer::Answer,
    ) -> Result<Answer, Refusal> {
        self.step = self.step.saturating_add(1);
        self.steps = self.steps.saturating_add(1);
        let said = self.model.take(asked);
        self.expect(
            Said::from(said) == Said::from(answer),
            What::Answer(asked.client),
        );
        self.compare_buffers();
        said
    }

    pub fn compare_buffers(&mut self) {
        if let Some(i) = buffers::state_difference(&self.state, &self.model) {
            self.note(What::StateWord(i));
        }
        if let Some(i) = buffers::entries_difference(&self.entries, &self.model) {
            self.note(What::EntryWord(i));
        }
        self.words = self.words.saturating_add((WORDS + ENTRIES) as u64);
    }
}
