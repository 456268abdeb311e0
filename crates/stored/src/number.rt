// Numbers as little-endian bytes. The functions here serve `load`, `store` and the fit on stored bytes, which have tested that the bytes are there.
ghost use Rattle.std.specs.Prelude.{◌≡◌, ◌+◌, ◌≤◌, ℕ, length};
ghost use Rattle.std.specs.Float.{binary64};
ghost use Rattle.std.specs.Float.Ieee.{of_bits, to_bits};
ghost use Rattle.stored.specs.Numbers as Numbers;

use std::num::{f64_from_bits_with_nan, f64_to_bits_with_nan};

// A kind of number that a stored set has: W bytes, the lowest first.
pub trait LittleEndian<const W: usize>: Copy {
    // What the number that the bytes write stands for, and back.
    ghost of: { ℕ → Self };

    ghost number: { Self → ℕ };

    fn from_bytes(bytes: [u8; W]) -> Self
        ensures { result ≡ of (Numbers.little_endian W bytes.entry) };

    fn to_bytes(self) -> [u8; W]
        ensures { result ≡ Numbers.low_bytes W (number self) };
}

// A count.
impl LittleEndian<4> for u32 {
    ghost of = { λ v. v };

    ghost number = { λ v. v };

    #[tactic(auto, using(crate::proofs::Words::from_word))]
    fn from_bytes(bytes: [u8; 4]) -> u32
        ensures { result ≡ Numbers.little_endian 4 bytes }
    {
        u32::from_le_bytes(bytes)
    }

    #[tactic(auto, using(crate::proofs::Words::to_bytes_4))]
    fn to_bytes(self) -> [u8; 4]
        ensures { result ≡ Numbers.low_bytes 4 self }
    {
        self.to_le_bytes()
    }
}

// A time, by two's complement.
impl LittleEndian<8> for i64 {
    ghost of = { Numbers.time_of };

    ghost number = { Numbers.time_bits };

    #[tactic(auto, using(crate::proofs::Signs::time_from))]
    fn from_bytes(bytes: [u8; 8]) -> i64
        ensures { result ≡ Numbers.time_of (Numbers.little_endian 8 bytes) }
    {
        i64::from_le_bytes(bytes)
    }

    #[tactic(auto, using(crate::proofs::Signs::time_to))]
    fn to_bytes(self) -> [u8; 8]
        ensures { result ≡ Numbers.low_bytes 8 (Numbers.time_bits self) }
    {
        self.to_le_bytes()
    }
}

// A frequency. Any NaN is read, and stored, as the same one.
impl LittleEndian<8> for f64 {
    ghost of = { of_bits binary64 };

    ghost number = { to_bits binary64 };

    #[tactic(auto, using(crate::proofs::Words::from_double))]
    fn from_bytes(bytes: [u8; 8]) -> f64
        ensures { result ≡ of_bits binary64 (Numbers.little_endian 8 bytes) }
    {
        f64_from_bits_with_nan(u64::from_le_bytes(bytes))
    }

    #[tactic(auto, using(crate::proofs::Words::to_bytes_8))]
    fn to_bytes(self) -> [u8; 8]
        ensures { result ≡ Numbers.low_bytes 8 (to_bits binary64 self) }
    {
        f64_to_bits_with_nan(self).to_le_bytes()
    }
}

// The count at a place.
#[tactic(auto, using(crate::proofs::Words::from_word_at))]
pub fn word_at(l: &[u8], at: usize) -> u32
    requires { at + 4 ≤ length l.now }
    ensures { Numbers.Read 4 l.now at result }
{
    u32::from_le_bytes([l[at], l[at + 1], l[at + 2], l[at + 3]])
}
