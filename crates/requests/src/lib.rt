// What a session's input asks for: how it starts, and each of its lines read as a request and taken as a step. What is
// printed of an input is put by `printed`, for every product.
#![tactic(auto)]

// A log is passed on as its two buffers and no struct of them: `fresh` and `dispatch::check_and_take` take the two slices, as C passes them.

pub mod input;
pub mod line;
pub mod printed;
pub mod start;

// The byte that ends a line.
pub const LINE_END: u8 = b'\n';
