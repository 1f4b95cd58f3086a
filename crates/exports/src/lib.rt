// The calls for programs in C and Rust. Those that build, check or read take the archive's layout first, its width by its bits: 16, 64, and 32 for any
// other number; those that check or read take the limits behind it. A slice passes as a pointer and a length, a lent number as a pointer. A call answers
// a number from 0 on, or on a refusal minus the refusal's number. What the answer has no room for is stored through lent numbers. A refused call leaves
// what was lent as it was.
#![tactic(auto)]

pub mod key;
pub mod many;
pub mod parts;
pub mod range;
pub mod read;
pub mod write;
