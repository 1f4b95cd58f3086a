// Relative pointers and the alignment step: what readers and the builder have in common.
#![tactic(auto)]

pub mod rel_ptr;
pub mod ser;
