// Document 01's sine and cosine, bit for bit.
ghost use Rattle.std.specs.Prelude.{◌≡◌, ◌<◌, ◌≤◌, true, false, length};
ghost use Rattle.std.specs.Float.Ieee.{le, lt};
ghost use Rattle.float.specs.Constant.{decimal};
ghost use Rattle.float.specs.Ops.{◌⊛◌, bits, whole_of};
ghost use Rattle.float.specs.Trig.{horner, sin_poly, cos_poly, held_of, sin_at, cos_at, sin_of, cos_of, rest_of, quadrant_of, quarters_of, full, is_finite};

const FULL: f64 = 6.283185307179586;

const QUARTER: f64 = 1.5707963267948966;

#[derive(Clone, Copy)]
pub struct SinCos {
    pub sin: f64,
    pub cos: f64,
}

// An angle's quarter turns modulo 4, and the rest.
#[derive(Clone, Copy)]
struct Reduced {
    pub quadrant: u8,
    pub rest: f64,
}

// The f64 nearest (-1)^k/(2k+1)!
const SINE: [f64; 9] = [
    1.0,
    -0.16666666666666666,
    0.008333333333333333,
    -0.0001984126984126984,
    2.7557319223985893e-06,
    -2.505210838544172e-08,
    1.6059043836821613e-10,
    -7.647163731819816e-13,
    2.8114572543455206e-15,
];

// The f64 nearest (-1)^k/(2k)!
const COSINE: [f64; 9] = [
    1.0,
    -0.5,
    0.041666666666666664,
    -0.001388888888888889,
    2.48015873015873e-05,
    -2.755731922398589e-07,
    2.08767569878681e-09,
    -1.1470745597729725e-11,
    4.779477332387385e-14,
];

// c0 + w * (c1 + w * (.. + w * c))
pub(crate) fn horner(w: f64, terms: &[f64]) -> f64
    requires { 0 < length terms.now }
    ensures { result ≡ horner w terms.now }
{
    let last = terms.len() - 1;
    let mut sum = terms[last];
    for k in (0..last).rev() {
        sum = terms[k] + w * sum;
    }
    sum
}

fn sin_poly(r: f64) -> f64
    ensures { result ≡ sin_poly r }
{
    r * horner(r * r, &SINE)
}

fn cos_poly(r: f64) -> f64
    ensures { result ≡ cos_poly r }
{
    horner(r * r, &COSINE)
}

// An a from 0 up that rounds to 4 at most, to the nearest whole number, halves up.
fn nearest_whole(a: f64) -> u8
    requires { (is_finite a ≡ true) × (lt a (bits 0) ≡ false) × (whole_of a ≤ 4) }
    ensures { result ≡ whole_of a }
{
    if a < 0.5 {
        0
    } else if a < 1.5 {
        1
    } else if a < 2.5 {
        2
    } else if a < 3.5 {
        3
    } else {
        4
    }
}

fn held(x: f64) -> f64
    ensures { result ≡ held_of x }
{
    x.clamp(-1.0, 1.0)
}

// A v from one turn up to 8192 modulo one turn. Such a v is a whole multiple of 2^-50, and so is FULL: 7074237752028440 of them.
fn whole_rest(v: f64) -> f64
    requires { (le full v ≡ true) × (lt v (decimal 8192 0) ≡ true) }
    ensures { result ≡ v ⊛ full }
{
    let n = std::num::truncating_f64_to_u64(v * 1125899906842624.0);
    ((n % 7074237752028440) as f64) * 8.881784197001252e-16
}

// v % FULL: v itself below FULL, in integers up to 8192.
fn turn_rest(v: f64) -> f64
    ensures { result ≡ v ⊛ full }
{
    if v < FULL && -FULL < v {
        v
    } else if FULL <= v && v < 8192.0 {
        whole_rest(v)
    } else {
        crate::remainder::remainder(v, FULL)
    }
}

fn reduce(v: f64) -> Reduced
    ensures { (result.quadrant ≡ quadrant_of (quarters_of v)) × (result.rest ≡ rest_of v) }
{
    let z = turn_rest(v);
    let y = z / QUARTER;
    if y < 0.0 {
        let k = nearest_whole(-y);
        Reduced {
            quadrant: (4 - k % 4) % 4,
            rest: z - -(k as f64) * QUARTER,
        }
    } else if 0.0 < y {
        let k = nearest_whole(y);
        Reduced {
            quadrant: k % 4,
            rest: z - (k as f64) * QUARTER,
        }
    } else {
        Reduced {
            quadrant: 0,
            rest: z - y * QUARTER,
        }
    }
}

fn sin_at(q: u8, s: f64, c: f64) -> f64
    ensures { result ≡ sin_at q s c }
{
    match q {
        0 => held(s),
        1 => held(c),
        2 => held(-s),
        _ => held(-c),
    }
}

// Sine and cosine by the quadrant.
fn from_polys(q: u8, s: f64, c: f64) -> SinCos
    requires { q < 4 }
    ensures { (result.sin ≡ sin_at q s c) × (result.cos ≡ cos_at q s c) }
{
    SinCos {
        sin: sin_at(q, s, c),
        cos: sin_at((q + 1) % 4, s, c),
    }
}

pub fn sin(v: f64) -> f64
    ensures { result ≡ sin_of v }
{
    let a = reduce(v);
    sin_at(a.quadrant, sin_poly(a.rest), cos_poly(a.rest))
}

pub fn cos(v: f64) -> f64
    ensures { result ≡ cos_of v }
{
    let a = reduce(v);
    sin_at((a.quadrant + 1) % 4, sin_poly(a.rest), cos_poly(a.rest))
}

pub fn sin_cos(v: f64) -> SinCos
    ensures { (result.sin ≡ sin_of v) × (result.cos ≡ cos_of v) }
{
    let a = reduce(v);
    from_polys(a.quadrant, sin_poly(a.rest), cos_poly(a.rest))
}

#[derive(Clone, Copy)]
pub struct Pair {
    pub u: SinCos,
    pub v: SinCos,
}

// Two angles at once.
pub fn sin_cos_pair(u: f64, v: f64) -> Pair
    ensures { ((result.u.sin ≡ sin_of u) × (result.u.cos ≡ cos_of u)) × ((result.v.sin ≡ sin_of v) × (result.v.cos ≡ cos_of v)) }
{
    let a = reduce(u);
    let b = reduce(v);
    // The four polynomials stand in one straight line, so that the compiler may pack them.
    let s = sin_poly(a.rest);
    let c = cos_poly(a.rest);
    let t = sin_poly(b.rest);
    let d = cos_poly(b.rest);
    Pair {
        u: from_polys(a.quadrant, s, c),
        v: from_polys(b.quadrant, t, d),
    }
}
