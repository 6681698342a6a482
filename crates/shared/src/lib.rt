// The run log that controllers share. This crate has no code: the promises are in specs/.
#![tactic(auto)]
