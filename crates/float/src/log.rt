// Document 01's natural logarithm, bit for bit.
ghost use Rattle.std.specs.Prelude.{◌≡◌, ◌+◌, ◌/◌, ◌%◌};
ghost use Rattle.std.proofs.Math.IntN.{sub_ℕ};
ghost use Rattle.std.specs.Float.{binary64};
ghost use Rattle.std.specs.Float.Ieee.{of_int};
ghost use Rattle.float.specs.Ops.{bits};
ghost use Rattle.float.specs.Log.{log_poly, series_of, log_of, ln_of};

use crate::trig::horner;

// The f64 nearest 1/(2k+1)
const TERMS: [f64; 11] = [
    1.0,
    0.3333333333333333,
    0.2,
    0.14285714285714285,
    0.1111111111111111,
    0.09090909090909091,
    0.07692307692307693,
    0.06666666666666667,
    0.058823529411764705,
    0.05263157894736842,
    0.047619047619047616,
];

// H
fn log_poly(t: f64) -> f64
    ensures { result ≡ log_poly t }
{
    horner(t, &TERMS)
}

fn series(m: f64, e: f64) -> f64
    ensures { result ≡ series_of m e }
{
    let s = (m - 1.0) / (m + 1.0);
    e * 0.6931471805599453 + 2.0 * s * log_poly(s * s)
}

fn log(m: f64, e: f64) -> f64
    ensures { result ≡ log_of m e }
{
    if m > 1.4142135623730951 {
        series(m * 0.5, e + 1.0)
    } else {
        series(m, e)
    }
}

// a - b, rounded once
fn difference(a: u64, b: u64) -> f64
    ensures { result ≡ of_int binary64 (sub_ℕ a b) }
{
    if a < b {
        -std::num::nearest_u64_to_f64(b - a)
    } else {
        std::num::nearest_u64_to_f64(a - b)
    }
}

// 2^52: one in the exponent's field of a bit pattern. The digits below the leading one are less.
const DIGITS: u64 = 1 << 52;

// The bit pattern of 1.0.
const ONE: u64 = 0x3ff0000000000000;

// The logarithm by the fields of a bit pattern b: the digits make m, and the exponent's field less bias is e.
fn log_of_bits(b: u64, bias: u64) -> f64
    ensures { result ≡ log_of (bits (b % DIGITS + ONE)) (of_int binary64 (sub_ℕ (b / DIGITS) bias)) }
{
    let m = f64::from_bits(b % DIGITS + ONE);
    log(m, difference(b / DIGITS, bias))
}

pub fn ln(v: f64) -> f64
    ensures { result ≡ ln_of v }
{
    if v.is_nan() {
        return v;
    }
    if v < 0.0 {
        return f64::NAN;
    }
    if v == 0.0 {
        return f64::NEG_INFINITY;
    }
    if v == f64::INFINITY {
        return v;
    }
    if v < f64::MIN_POSITIVE {
        // 2^54 times a subnormal number is exact, and normal
        return log_of_bits((v * 18014398509481984.0).to_bits(), 1077);
    }
    log_of_bits(v.to_bits(), 1023)
}
