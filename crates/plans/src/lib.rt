// Steps by their numbers, and plans: such steps as words, run up to a budget, and what a run will use.
// The public functions take the buffers as parameters, since they work for any words, as C lends them; `dispatch::log_mut::LogMut` is what passed.
#![tactic(auto)]

mod count;
pub mod forecast;
pub mod number;
pub mod run;
mod stretch;
pub mod word;
