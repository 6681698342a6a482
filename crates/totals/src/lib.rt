// Totals of a log: the sum of one ledger's values, and the sum of the whole run.
//
// `ledger_sum` and `run_total` take `state` and `entries` as two parameters: they may be no log, and both refuse those with 1 and 2.
#![tactic(auto)]

pub mod answer;
mod exact;
pub mod ledger_sum;
pub mod run_total;
mod sums;
