// What the digit maps are made of. Each `requires` is met by proof where the function is called.
ghost use Rattle.std.specs.Prelude.{◌≡◌, ◌<◌, ◌≤◌, length};
ghost use Rattle.monna.specs.Digits.{monna_of, inverse_of, clamp_of, distance_of, normalized_at, row};
ghost use Rattle.monna.specs.History.{quotient_of, difference_at, differences_of};

use crate::base::Base;

pub fn monna_value(mut val: u64, p: Base) -> f64
    ensures { result ≡ monna_of val p.value }
{
    let q = std::num::nearest_u64_to_f64(p.value);
    let mut res = 0.0;
    let mut base = 1.0 / q;
    while val > 0 {
        res += std::num::nearest_u64_to_f64(val % p.value) * base;
        val /= p.value;
        base /= q;
    }
    res
}

// x held to 0.0 up to 1.0 - 1e-15; NaN stays.
fn clamp(x: f64) -> f64
    ensures { result ≡ clamp_of x }
{
    x.clamp(0.0, 1.0 - 1e-15)
}

// No product here is above 7^16 * 6, so that the reference's test of an overflow never ends its loop.
pub fn inverse_value(x: f64, p: Base, precision: usize) -> u64
    requires { precision ≤ 16 }
    ensures { result ≡ inverse_of x p.value precision }
{
    let q = std::num::nearest_u64_to_f64(p.value);
    let mut rest = clamp(x);
    let mut val: u64 = 0;
    let mut factor: u64 = 1;
    for _ in 0..precision {
        let scaled = rest * q;
        let digit = float::cast::saturating_f64_to_u64(float::floor(scaled));
        val += digit % p.value * factor;
        rest = scaled - std::num::nearest_u64_to_f64(digit);
        factor *= p.value;
    }
    val
}

pub fn distance_value(a: u64, b: u64, p: Base) -> f64
    ensures { result ≡ distance_of a b p.value }
{
    if a == b {
        return 0.0;
    }
    let q = std::num::nearest_u64_to_f64(p.value);
    let mut diff = a.abs_diff(b);
    let mut power = 1.0;
    while diff % p.value == 0 {
        diff /= p.value;
        power *= q;
    }
    1.0 / power
}

pub fn normalized(x: f64, p: Base) -> f64
    ensures { result ≡ normalized_at x p.value }
{
    let held = float::min(float::abs(x) / 20000000.0, 0.99999);
    monna_value(inverse_value(held, p, 16), p)
}

// The place of each coordinate in [0, 1] by base p.
pub(super) fn row(coord: [f64; 3], p: Base) -> [f64; 3]
    ensures { result ≡ row coord p.value }
{
    coord.map(|x| normalized(x, p))
}

// The difference of two numbers of a history, at places i and j, over their 2-adic distance to the power of 1.5.
fn quotient(u: f64, v: f64, i: usize, j: usize, sum: f64) -> f64
    ensures { result ≡ quotient_of u v i j sum }
{
    let dist = distance_value(i as u64, j as u64, Base { value: 2 });
    if dist > 1e-9 {
        sum + (u - v) / (dist * roots::sqrt(dist))
    } else {
        sum
    }
}

pub fn difference_at(x: &[f64], i: usize) -> f64
    requires { i < length x.now }
    ensures { result ≡ difference_at x.now i }
{
    let mut sum = 0.0;
    for (j, &v) in x.iter().enumerate() {
        if i != j {
            sum = quotient(x[i], v, i, j, sum);
        }
    }
    sum
}

pub fn differences(x: &[f64], out: &mut [f64])
    requires { length out.old ≡ length x.now }
    ensures { out.new ≡ differences_of x.now }
{
    for (i, place) in out.iter_mut().enumerate() {
        *place = difference_at(x, i);
    }
}
