// A number that stands for all bytes of an output.
ghost use Rattle.std.specs.Prelude.{◌≡◌};
ghost use Rattle.cases.specs.Checksum.{checksum};

const BASE: u64 = 1_000_003;

// The largest prime below 2^32.
const MODULUS: u64 = 4_294_967_291;

// Takes the bytes as the digits of a number, the first one the highest, and answers its remainder.
pub fn checksum(bytes: &[u8]) -> u64
    ensures { result ≡ checksum bytes.now }
{
    let mut remainder = 0;
    for byte in bytes {
        remainder = (remainder * BASE + u64::from(*byte)) % MODULUS;
    }
    remainder
}
