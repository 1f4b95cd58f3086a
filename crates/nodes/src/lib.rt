// The bytes of closed nodes, in the layout that is named.
#![tactic(auto)]

pub mod inline_vec;
pub mod node;
pub mod words;
