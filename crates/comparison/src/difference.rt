// What can differ between a log and the model, and where it was found.
use std::fmt;

// What differs: the answer to a client, a word, by its index in its buffer or in the chain reading, how many words that reading has, or the
// readings of a ledger.
#[derive(Clone, Copy, Debug, PartialEq, Eq)]
pub enum What {
    Answer(u64),
    StateWord(usize),
    EntryWord(usize),
    ChainWord(usize),
    ChainLength,
    Ledger(u64),
}

impl fmt::Display for What {
    fn fmt<W: fmt::Write>(&self, f: &mut fmt::Formatter<W>) -> fmt::Result {
        match self {
            What::Answer(client) => write!(f, "answer to   {client}"),
            What::StateWord(i) => write!(f, "state word  {i}"),
            What::EntryWord(i) => write!(f, "entry word  {i}"),
            What::ChainWord(i) => write!(f, "chain word  {i}"),
            What::ChainLength => write!(f, "chain length"),
            What::Ledger(id) => write!(f, "ledger      {id}"),
        }
    }
}

// A difference, and the history and the step in it, both from 1, after which it was found.
#[derive(Clone, Copy, Debug, PartialEq, Eq)]
pub struct Difference {
    pub what: What,
    pub history: u64,
    pub step: u64,
}
