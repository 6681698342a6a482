// The lines that the session prints: an answer with its number, and the chain.
#![tactic(auto)]

pub mod chain_line;
pub mod reply;
