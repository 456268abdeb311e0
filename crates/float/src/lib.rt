// Document 01's float helpers: least, greatest, size, sign, floor, remainder, angles; sine and cosine; casts.
#![tactic(auto)]

pub mod cast;
pub mod log;
pub mod remainder;
pub mod trig;
pub mod word;

ghost use Rattle.std.specs.Prelude.{◌≡◌};
ghost use Rattle.float.specs.Ops.{max_of, min_of, abs_of, signum_of, rem_euclid_of, degrees_of, radians_of, floor_of, round_of, power_of};

// The nearest to π, and the largest.
pub const PI: f64 = 3.141592653589793;

pub const MAX: f64 = 1.7976931348623157e308;

pub fn max(v: f64, w: f64) -> f64
    ensures { result ≡ max_of v w }
{
    if v.is_nan() || v < w { w } else { v }
}

pub fn min(v: f64, w: f64) -> f64
    ensures { result ≡ min_of v w }
{
    if v.is_nan() || w < v { w } else { v }
}

// |v|: a zero comes out positive, and a NaN as it is.
pub fn abs(v: f64) -> f64
    ensures { result ≡ abs_of v }
{
    v.abs()
}

// ±1 by the sign, that of a zero too, and NaN for NaN.
pub fn signum(v: f64) -> f64
    ensures { result ≡ signum_of v }
{
    v.signum()
}

// v % d, with d added to a negative remainder.
pub fn rem_euclid(v: f64, d: f64) -> f64
    ensures { result ≡ rem_euclid_of v d }
{
    let r = remainder::remainder(v, d);
    if r < 0.0 { r + d } else { r }
}

pub fn to_degrees(v: f64) -> f64
    ensures { result ≡ degrees_of v }
{
    v.to_degrees()
}

pub fn to_radians(v: f64) -> f64
    ensures { result ≡ radians_of v }
{
    v.to_radians()
}

// The greatest whole number at most v.
pub fn floor(v: f64) -> f64
    ensures { result ≡ floor_of v }
{
    v.floor()
}

// To the nearest whole number, halves away from zero, the sign kept.
pub fn round(v: f64) -> f64
    ensures { result ≡ round_of v }
{
    v.round()
}

// v to the power n, by repeated products.
pub fn power(v: f64, n: u64) -> f64
    ensures { result ≡ power_of v n }
{
    let mut product = 1.0;
    for _ in 0..n {
        product *= v;
    }
    product
}
