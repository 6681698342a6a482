// The rights of the clients: a buffer of 16 words, with a bit for each kind of step. They are only read, or made for a caller that passes all.
// State, entries and rights stay three parameters: a caller in C lends three buffers of its own, whose lengths are tested before any word.
#![tactic(auto)]

pub mod all;
pub mod form;
pub mod right;
pub mod verdict;

use chain::kind::Kind;

// The words of a rights buffer, one for each client.
pub const LENGTH: usize = 16;

// The rights, in the reference's order of steps, most significant first.
pub const NAME: u64 = 1 << (63 - Kind::Name as u64);

pub const BECOME: u64 = 1 << (63 - Kind::Become as u64);

pub const ABDICATE: u64 = 1 << (63 - Kind::Abdicate as u64);

pub const FETCH: u64 = 1 << (63 - Kind::Fetch as u64);

pub const CLOSE_LAST: u64 = 1 << (63 - Kind::CloseLast as u64);

pub const FINISH: u64 = 1 << (63 - Kind::Finish as u64);

pub const CREATE: u64 = 1 << (63 - Kind::Create as u64);

pub const APPEND: u64 = 1 << (63 - Kind::Append as u64);

pub const WRITE: u64 = 1 << (63 - Kind::Write as u64);

pub const CLOSE_OWN: u64 = 1 << (63 - Kind::CloseOwn as u64);

// All ten.
pub const EVERY_RIGHT: u64 = 0xFFC0000000000000;
