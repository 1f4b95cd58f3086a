// The bits of a value: whether the stimulus was seen, and the threshold. The lowest 53 are free.
ghost use Rattle.std.specs.Prelude.{◌≡◌};
ghost use Rattle.format.specs.Key.{seen, threshold};

pub fn is_seen(value: u64) -> bool
    ensures { result ≡ seen value }
{
    value >> 63 == 1
}

// In tenths of a decibel.
pub fn threshold(value: u64) -> u16
    ensures { result ≡ threshold value }
{
    ((value >> 53) % 1024) as u16
}
