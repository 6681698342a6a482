// One log for many controllers: the types of a controller's turns. The definitions and promises are in specs/; the crate turns decides.
#![tactic(auto)]

pub mod controller;
