// Text that is put together in a lent buffer or in a room of its own: bytes and decimal numbers, one behind the other.
#![tactic(auto)]

ghost use Rattle.std.specs.Prelude.{◌≡◌, [], ◌++◌, ◌+◌, ◌≤◌, length};
ghost use Rattle.text.specs.Decimal.{decimal};

mod room;

pub use crate::room::{put, put_decimal};
use std::marker::Model;

// A text of at most N bytes.
#[derive(Drop)]
pub struct Text<const N: usize> {
    bytes: [u8; N],
    length: usize,
}

// Clauses see the bytes of the text.
impl<const N: usize> Model for Text<N> {
    ghost use Rattle.std.specs.Prelude.{ℕ, List, ◌≤◌, take};

    ghost Value = { List ℕ };

    ghost view = { λ t. take t.length t.bytes };

    ghost invariant = { λ t. t.length ≤ N };
}

impl<const N: usize> Text<N> {
    // Makes an empty text.
    pub fn new() -> Self
        ensures { result ≡ [] }
    {
        Text {
            bytes: [0; N],
            length: 0,
        }
    }

    // Puts bytes behind the text.
    pub fn push(&mut self, bytes: &[u8])
        requires { length self.old + length bytes.now ≤ N }
        ensures { self.new ≡ self.old ++ bytes.now }
    {
        self.length = put(&mut self.bytes, self.length, bytes);
    }

    // Puts the digits of a number behind the text.
    pub fn push_decimal(&mut self, number: u64)
        requires { length self.old + 20 ≤ N }
        ensures { self.new ≡ self.old ++ decimal number }
    {
        self.length = put_decimal(&mut self.bytes, self.length, number);
    }

    // Lends the bytes of the text.
    pub fn as_bytes(&self) -> &[u8]
        ensures { result.now ≡ self.now }
    {
        &self.bytes[..self.length]
    }
}
