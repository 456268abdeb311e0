// Numbers as lists of stored answers write them: 16 hexadecimal digits, of an `f64` its bits.
ghost use Rattle.std.specs.Prelude.{◌≡◌, ◌<◌};
ghost use Rattle.std.specs.Float.{binary64};
ghost use Rattle.std.specs.Float.Ieee.{of_bits, to_bits};
ghost use Rattle.answer_lines.specs.Word.{hex_digit, hex_word_at};

use crate::{after, first};
use std::num::{f64_from_bits_with_nan, f64_to_bits_with_nan};

// The value of a hexadecimal digit.
fn digit(c: u8) -> u64
    ensures { (result ≡ hex_digit c) × (result < 16) }
{
    let low = (c % 16) as u64;
    if c < 58 { low } else { (low + 9) % 16 }
}

// The number whose 16 digits stand at place `at`. Digits past the line's end are left out.
pub fn word(line: &[u8], at: usize) -> u64
    ensures { result ≡ hex_word_at line.now at }
{
    let digits = first(after(line, at), 16);
    let mut value = 0;
    for c in digits {
        value = value * 16 + digit(*c);
    }
    value
}

// The `f64` of a bit pattern, a NaN's too.
pub fn float(bits: u64) -> f64
    ensures { result ≡ of_bits binary64 bits }
{
    f64_from_bits_with_nan(bits)
}

// The bit pattern of an `f64`: 7ff8000000000000 for every NaN.
pub fn bits(x: f64) -> u64
    ensures { result ≡ to_bits binary64 x }
{
    f64_to_bits_with_nan(x)
}
