// Text in bytes: decimal numerals and fixed phrases, written to and read from byte slices.
#![tactic(auto)]

pub mod decimal;
pub mod find;
pub mod lent;
pub mod phrase;
pub mod writer;
