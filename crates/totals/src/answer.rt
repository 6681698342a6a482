// What the totals answer. Values and sums are in parts of 10^-12.
use chain::answer::Refusal;

// How many entries a ledger has, and the sum of their values.
#[derive(Clone, Copy, Debug, PartialEq, Eq, Drop)]
pub struct LedgerSum {
    pub entries: u64,
    pub sum: u64,
}

// The sum of the run is ones × 10^12 + parts, of which the parts are below 10^12: a ledger that is listed twice counts twice, so the
// sum can leave 64 bits. Rounded to thousandths it cannot.
#[derive(Clone, Copy, Debug, PartialEq, Eq, Drop)]
pub struct RunTotal {
    pub ones: u64,
    pub parts: u64,
    pub rounded: u64,
}
