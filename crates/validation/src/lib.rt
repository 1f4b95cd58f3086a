#![tactic(auto)]

pub mod check;
