// The builder of an archive: its refusals, its length and its parts.
#![tactic(auto)]

pub mod build;
pub mod size;
