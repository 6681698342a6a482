// What C, C++ and Rust link: each function exports the one of its name in capi, with that one's contract. A library exports nothing by itself.
// C calls each function by its name, with a pointer and a length for each buffer and a number for each enum, so they stay one for each call.
#![tactic(auto)]

mod advice;
mod by_number;
mod log;
mod mark;
mod permitted;
mod plan;
mod reading;
mod rearranged;
mod sentence;
mod step;
mod total;
mod turn;
mod version;
mod window;
