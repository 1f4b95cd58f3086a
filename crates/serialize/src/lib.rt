// The nodes of all entries.
#![tactic(auto)]

pub mod given;
pub mod map;
