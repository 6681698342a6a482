// Quality scores as one number: the sum of their error probabilities, in whole parts of 10^-12.
#![tactic(auto)]

pub mod sum;
pub mod table;
