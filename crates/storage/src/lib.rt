// Words rearranged into bytes for storage, similar bytes together, and restored. They need not be a log.
#![tactic(auto)]

pub mod rearrange;
pub mod restore;
mod size;
