// The limits of the log and of its programs. A constant whose name ends in LIMIT is the largest value that is accepted.
#![tactic(auto)]

// Clients that share a log.
pub const CLIENT_LIMIT: u64 = 16;

// The number of the next ledger. Where it is this, no number is left: ledgers have the numbers below.
pub const NEXT_LEDGER_LIMIT: u64 = 256;

// Places of the list.
pub const PLACE_LIMIT: u64 = 255;

// A value: it has 52 bits.
pub const VALUE_LIMIT: u64 = (1 << 52) - 1;

// The two lengths of an entry buffer: so many entries a log takes.
pub const SMALL_CAPACITY: usize = 512;

pub const LARGE_CAPACITY: usize = 4096;

// Scores of a list, and a score.
pub const SCORES_LIMIT: usize = 4000;

pub const SCORE_LIMIT: u16 = 372;

// Words of a window.
pub const WINDOW_LIMIT: u64 = 256;

// Words that are rearranged for storage.
pub const REARRANGE_LIMIT: usize = 4096;

// Bytes of a session's input.
pub const INPUT_LIMIT: usize = 16384;

// Bytes of a session's transcript, and of its run total. No input leads to more.
pub const TRANSCRIPT_LIMIT: usize = 540678;

pub const RUN_TOTAL_LIMIT: usize = 12799;
