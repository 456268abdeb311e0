// Rust's v % d in exact steps: d is doubled while twice it is at most v. Then it is halved again, and at each halving taken from the rest where it fits.
#![tactic(auto)]

ghost use Rattle.std.specs.Prelude.{◌≡◌, true, false, cond, not, ◌&&◌};
ghost use Rattle.std.specs.Float.Ieee.{lt};
ghost use Rattle.float.specs.Ops.{bits, ◌⊕◌, ◌⊖◌, ◌⊛◌};

// Twice s is a number and at most v: from 2^1023 on, twice a number overflows.
fn twice_fits(s: f64, v: f64) -> bool
    ensures { result ≡ (lt s (bits 0x7fe0000000000000) && not (lt v (s ⊕ s))) }
{
    s < 8.98846567431158e307 && !(v < s + s)
}

fn taken(r: f64, s: f64) -> f64
    ensures { result ≡ cond (lt r s) r (r ⊖ s) }
{
    if r < s { r } else { r - s }
}

// For 0 < d <= v; NaN where v is no number.
fn by_steps(v: f64, d: f64) -> f64
    requires { (lt (bits 0) d ≡ true) × (lt v d ≡ false) }
    ensures { result ≡ v ⊛ d }
{
    if !(v < f64::INFINITY) {
        return f64::NAN;
    }
    let mut s = d;
    let mut n = 0u32;
    while twice_fits(s, v) {
        s += s;
        n += 1;
    }
    let mut r = v - s;
    for _ in 0..n {
        s *= 0.5;
        r = taken(r, s);
    }
    r
}

fn of_sign(v: f64, d: f64) -> f64
    requires { lt (bits 0) d ≡ true }
    ensures { result ≡ v ⊛ d }
{
    if v < d {
        if -d < v {
            return v;
        }
        return -by_steps(-v, d);
    }
    by_steps(v, d)
}

// NaN where v is no number or d is zero; the sign is v's.
pub fn remainder(v: f64, d: f64) -> f64
    ensures { result ≡ v ⊛ d }
{
    if 0.0 < d {
        return of_sign(v, d);
    }
    if d < 0.0 {
        return of_sign(v, -d);
    }
    f64::NAN
}
