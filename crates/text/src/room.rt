// Text that is put together in a lent buffer.
ghost use Rattle.std.specs.Prelude.{◌≡◌, ◌++◌, ◌+◌, ◌≤◌, length, take, drop};
ghost use Rattle.text.specs.Decimal.{decimal};

// Puts bytes into the text from a place on, and answers the place after them. The bytes from there on stay.
#[tactic(auto, using(std::proofs::lemmas::Slice::overwrites))]
pub fn put(text: &mut [u8], at: usize, bytes: &[u8]) -> usize
    requires { at + length bytes.now ≤ length text.old }
    ensures end { result ≡ at + length bytes.now }
    ensures text { take result text.new ≡ take at text.old ++ bytes.now }
    ensures rest { drop result text.new ≡ drop result text.old }
{
    let end = at + bytes.len();
    text[at..end].copy_from_slice(bytes);
    end
}

// Puts the digits of a number into the text from a place on, and answers the place after them. The bytes from there on stay.
#[tactic(auto, using(crate::proofs::Texts::decimal_is, crate::proofs::Texts::length_decimal))]
pub fn put_decimal(text: &mut [u8], at: usize, number: u64) -> usize
    requires { at + 20 ≤ length text.old }
    ensures end { (at ≤ result) × (result ≤ at + 20) }
    ensures text { take result text.new ≡ take at text.old ++ decimal number }
    ensures rest { drop result text.new ≡ drop result text.old }
{
    put(text, at, itoa::Buffer::new().format(number).as_bytes())
}
