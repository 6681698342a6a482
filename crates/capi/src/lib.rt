// The log for callers in C, C++ and Rust: answers are numbers. The crate capi_c exports these functions, and include/cindrolf.h declares them.
// What crosses the boundary is what C has: numbers, structs of numbers, and buffers as a pointer and a length each. So `state` and `entries` are two
// parameters of each function of the log, an enum is a number, and of an Option or a Result each number that there is not is 0. Each step has two
// functions, with rights and without, since that header names them.
#![tactic(auto)]

pub mod advice;
pub mod by_number;
pub mod log;
pub mod mark;
mod number;
pub mod permitted;
pub mod plan;
pub mod reading;
pub mod rearranged;
pub mod sentence;
pub mod step;
pub mod total;
pub mod turn;
pub mod version;
pub mod window;
