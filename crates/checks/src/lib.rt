// Tests of numbers, and lists of checks in their order. This crate has no code: the definitions and laws are in specs/.
#![tactic(auto)]
