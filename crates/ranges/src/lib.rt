// The range over an archive that certification has accepted.
#![tactic(auto)]

pub mod iter;
pub mod node;
