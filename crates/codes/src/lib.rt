// Answers, bounds, packings and layouts as numbers, for programs in C and Rust.
#![tactic(auto)]

ghost use Rattle.std.specs.Prelude.{◌≡◌, ℕ, ◌<◌, ◌^◌, pos, neg_ℤ};
ghost use Rattle.format.specs.Layout.{layout_of};
ghost use Rattle.format.specs.Refusal.{gives, answer_of, number};
ghost use Rattle.codes.specs.Answers.{coded, bound_of, packing_of, width_by, layout_by};

use format::{Layout, Packing, Refusal, Width};
use std::ops::Bound;

// What is given, as an answer.
pub fn given(n: usize) -> i64
    requires { n < 2 ^ 63 }
    ensures { result ≡ pos n }
{
    n as i64
}

// A refusal, as an answer: minus its number.
pub fn refused(why: Refusal) -> i64
    ensures { result ≡ neg_ℤ (pos (number why)) }
{
    -(why.number() as i64)
}

// A number that a call gives, or its refusal, as an answer.
pub fn counted(answer: Result<usize, Refusal>) -> i64
    requires { (n : ℕ) → answer_of answer ≡ gives n → n < 2 ^ 63 }
    ensures { result ≡ coded (λ n. n) (answer_of answer) }
{
    match answer {
        Ok(count) => given(count),
        Err(why) => refused(why),
    }
}

// A bound by its kind: 0 is included, 1 excluded, any other open.
pub fn bound(kind: u8, key: u64) -> Bound<u64>
    ensures { result ≡ bound_of kind key }
{
    match kind {
        0 => Bound::Included(key),
        1 => Bound::Excluded(key),
        _ => Bound::Unbounded,
    }
}

// A packing by its number: 0 is two's complement, any other plus 128.
pub fn packing(number: u8) -> Packing
    ensures { result ≡ packing_of number }
{
    match number {
        0 => Packing::TwosComplement,
        _ => Packing::Plus128,
    }
}

// A width by its bits: 16, 64, and 32 for any other number.
fn width(bits: u8) -> Width
    ensures { result ≡ width_by bits }
{
    match bits {
        16 => Width::Two,
        64 => Width::Eight,
        _ => Width::Four,
    }
}

// A layout by the width's bits and the entries a node.
pub fn layout(bits: u8, entries: usize) -> Layout
    ensures { layout_of result ≡ layout_by bits entries }
{
    let width = width(bits);
    Layout { width, entries }
}
