// The square root and the cube root of an `f64`, correctly rounded.
#![tactic(auto)]

pub mod cube;
mod parts;

ghost use Rattle.std.specs.Prelude.{◌≡◌, ◌+◌, ◌*◌, ◌^◌, ◌≤◌, ◌<◌, MatchOption};
ghost use Rattle.std.specs.Float.{binary64};
ghost use Rattle.std.specs.Float.Ieee.{of_bits};
ghost use Rattle.roots.specs.Root.{root_of, sqrt_of};
ghost use Rattle.roots.specs.Power.{square};
ghost use Rattle.roots.specs.Nearest.{Nearest};

use parts::{INFINITY, LEADING};

// The whole number nearest to the root of m * 2 ^ 52, two binary digits of that a turn, from the
// highest. `root` is the root of the digits taken so far and `rem` its remainder; `rest` has the
// digits to come at its top.
fn root_by_digits(m: u64) -> u64
    requires { (0 < m) × (m < 2 ^ 54) }
    ensures { Nearest square (m * 2 ^ 52) result }
{
    let mut rest = m;
    let mut root: u64 = 0;
    let mut rem: u64 = 0;
    for _ in 0..53u64 {
        rem = rem * 4 + rest / LEADING;
        rest = rest % LEADING * 4;
        root *= 2;
        if rem > root * 2 {
            rem -= root * 2 + 1;
            root += 1;
        }
    }
    if rem > root { root + 1 } else { root }
}

// The same from an estimate: q, the estimate's last 52 binary digits below a leading one, where it is wrong by one at most.
fn corrected_root(m: u64, estimate: u64) -> Option<u64>
    ensures { MatchOption result Unit (λ q. Nearest square (m * 2 ^ 52) q) }
{
    let q = estimate % LEADING + LEADING;
    let n = u128::from(m) << 52;
    let wide = u128::from(q);
    let square = wide * wide;
    if n > square + wide * 3 + 2 || n + wide * 3 <= square + 2 {
        return None;
    }
    let up = if n > square + wide { q + 1 } else { q };
    Some(if n + wide <= square { q - 1 } else { up })
}

// The same, always.
fn nearest_root(m: u64, estimate: u64) -> u64
    requires { (0 < m) × (m < 2 ^ 54) }
    ensures { Nearest square (m * 2 ^ 52) result }
{
    corrected_root(m, estimate).unwrap_or_else(|| root_by_digits(m))
}

// The bit pattern of the root of m * 2 ^ (g + 54) / 4 ^ 1075.
fn root_bits(m: u64, g: u64, estimate: u64) -> u64
    requires { (2 ^ 52 ≤ m) × (m < 2 ^ 53) × (g < 3068) }
    ensures { (of_bits binary64 result ≡ root_of (m * 2 ^ (g + 54))) × (result < INFINITY) }
{
    g / 2 * LEADING + nearest_root(m << (g % 2), estimate)
}

// The bit pattern of a number near the root of x, whose pattern is b. Only that it is safe is proved: `nearest_root` checks the
// estimate, and works by digits where it is wrong. For a normal x, y is within 0.00066 of 1 / √x, as a part of that, so
// e = 1 - x * y * y is within 0.0014 of 0, and √x = x * y / √(1 - e); the polynomial is 1 / √(1 - e), to the last place or so. For a
// subnormal x it may be far off.
fn estimated_bits(x: f64, b: u64) -> u64
    requires { b < INFINITY }
{
    let first = f64::from_bits(0x5fe4000000000000 - b / 2);
    let y = 0.703952253 * first * (2.38924456 - x * first * first);
    let g = x * y;
    let e = 1.0 - g * y;
    let s = g + g * e * (0.49999999999978 + 0.375 * e + e * e * (0.31250052031 + 0.2734375 * e));
    if s > 0.0 { s.to_bits() } else { 0 }
}

// The square root, as IEEE 754 has it.
pub fn sqrt(x: f64) -> f64
    ensures { result ≡ sqrt_of x }
{
    if x > 0.0 {
        let b = x.to_bits();
        if b >= INFINITY {
            return x;
        }
        let p = parts::split(b);
        f64::from_bits(root_bits(p.digits, p.exponent + 970, estimated_bits(x, b)))
    } else if x == 0.0 {
        x
    } else {
        f64::NAN
    }
}
