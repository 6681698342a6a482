// Marks: named points of a run, in a third buffer. A caller sets, drops and reads at them; the log itself is only read.
// State, entries and marks stay three parameters: a caller in C lends three buffers of its own, whose lengths are tested before any word.
#![tactic(auto)]

pub mod drop;
mod form;
mod pairs;
pub mod read;
pub mod set;
mod verdict;
