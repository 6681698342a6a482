// Amounts in whole parts of 10^-12: written with their decimals, and rounded to thousandths.
#![tactic(auto)]

pub mod fixed;
pub mod rounding;
