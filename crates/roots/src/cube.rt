// The cube root. It is called once in a while, so it bisects.
ghost use Rattle.std.specs.Prelude.{◌≡◌, ◌+◌, ◌-◌, ◌*◌, ◌^◌, ◌≤◌, ◌<◌, leb};
ghost use Rattle.std.specs.Float.{binary64};
ghost use Rattle.std.specs.Float.Ieee.{of_bits};
ghost use Rattle.roots.specs.Cube.{cube_root_of, cbrt_of};
ghost use Rattle.roots.specs.Power.{cube};
ghost use Rattle.roots.specs.Nearest.{Nearest};

use crate::parts::{self, INFINITY, LEADING};

// c ^ 3 has up to 165 binary digits: its last 54 are counted apart.
const LOWER: u128 = 1 << 54;

// Whether c ^ 3 is at most m * 2 ^ 107.
fn cube_at_most(c: u64, m: u64) -> bool
    requires { c < 2 ^ 55 }
    ensures { result ≡ leb (cube c) (m * 2 ^ 107) }
{
    let c = u128::from(c);
    let square = c * c;
    let upper = square / LOWER * c;
    let lower = square % LOWER * c;
    upper + lower.div_ceil(LOWER) <= u128::from(m) << 53
}

// The whole number nearest to the cube root of m * 2 ^ 104.
fn nearest_cube_root(m: u64) -> u64
    requires { (2 ^ 52 ≤ m) × (m < 2 ^ 55) }
    ensures { Nearest cube (m * 2 ^ 104) result }
{
    let mut low = LEADING;
    let mut high = LEADING * 2 + 1;
    while high - low > 1 {
        let mid = low + (high - low) / 2;
        if cube_at_most(mid * 2 - 1, m) {
            low = mid;
        } else {
            high = mid;
        }
    }
    low
}

// The bit pattern of the cube root of m * 2 ^ (g + 107) / 8 ^ 1075.
fn cube_root_bits(m: u64, g: u64) -> u64
    requires { (2 ^ 52 ≤ m) × (m < 2 ^ 53) × (g < 4090) }
    ensures { (of_bits binary64 result ≡ cube_root_of (m * 2 ^ (g + 107))) × (result < INFINITY) }
{
    g / 3 * LEADING + nearest_cube_root(m << (g % 3))
}

// The cube root of a number above zero. Of the rest, what Rust's `powf(1.0 / 3.0)` gives.
pub fn cbrt(x: f64) -> f64
    ensures { result ≡ cbrt_of x }
{
    if x > 0.0 {
        let b = x.to_bits();
        if b >= INFINITY {
            return x;
        }
        let p = parts::split(b);
        return f64::from_bits(cube_root_bits(p.digits, p.exponent + 1992));
    }
    if x == 0.0 {
        0.0
    } else if x == f64::NEG_INFINITY {
        f64::INFINITY
    } else {
        f64::NAN
    }
}
