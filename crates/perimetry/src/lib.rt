// Keys and values of a visual field examination: key packing, the bits of a value, and the column query's bounds.
#![tactic(auto)]

pub mod column;
mod degrees;
pub mod key;
pub mod value;
