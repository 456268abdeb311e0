// The noise that the samples of passes show by themselves, and what a fit's residual is beside it. The functions that require something are
// internal: their callers meet it by proof.
#![tactic(auto)]

ghost use Rattle.std.specs.Prelude.{◌≡◌, ◌≤◌, ◌+◌, get_or};
ghost use Rattle.std.specs.Float.{nan};
ghost use Rattle.noise.specs.Noise.{between_of, seconds_at, moments_at, product_of, products_of, products_at, apart_of, weights_of, frequencies_at, difference_of, weight_size, window_of, windows_of, pass_sums, estimate_of};
ghost use Rattle.noise.specs.Verdict.{bound_of, ratio_of, verdict_of};

// A number for each of five neighbouring samples.
#[derive(Clone, Copy)]
pub struct Five {
    pub a: f64,
    pub b: f64,
    pub c: f64,
    pub d: f64,
    pub e: f64,
}

// The squares of the windows' noise added, how many windows there are, and the next pass's first sample.
#[derive(Clone, Copy)]
pub struct Sums {
    pub squares: f64,
    pub windows: f64,
    pub at: usize,
}

#[derive(Clone, Copy)]
pub enum Finding {
    AtNoise,
    Doubtful,
    TwoPasses,
    Untold,
}

// The seconds from e to t; NaN where one of them is out of range.
fn between(t: i64, e: i64) -> f64
    ensures { result ≡ between_of t e }
{
    if moment::sample::in_range(t) && moment::sample::in_range(e) {
        moment::time::tau(moment::sample::of_nanos(t), moment::sample::of_nanos(e))
    } else {
        0.0 / 0.0
    }
}

// From sample j to sample k; NaN past the last sample.
fn seconds(times: &[i64], k: usize, j: usize) -> f64
    ensures { result ≡ seconds_at times.now k j }
{
    if k < times.len() && j < times.len() {
        between(times[k], times[j])
    } else {
        0.0 / 0.0
    }
}

// The moments of five samples, each counted once, from the first of them: were each distance cut to microseconds by itself, the
// weights would not add up to 0, and the carrier would count as noise.
fn moments(times: &[i64], k: usize) -> Five
    requires { k ≤ 1099511627776 }
    ensures { result ≡ moments_at times.now k }
{
    Five {
        a: seconds(times, k, k),
        b: seconds(times, k + 1, k),
        c: seconds(times, k + 2, k),
        d: seconds(times, k + 3, k),
        e: seconds(times, k + 4, k),
    }
}

fn product(t: f64, p: f64, q: f64, r: f64, s: f64) -> f64
    ensures { result ≡ product_of t p q r s }
{
    (t - p) * (t - q) * (t - r) * (t - s)
}

fn products_of(t: Five) -> Five
    ensures { result ≡ products_of t }
{
    Five {
        a: product(t.a, t.b, t.c, t.d, t.e),
        b: product(t.b, t.a, t.c, t.d, t.e),
        c: product(t.c, t.a, t.b, t.d, t.e),
        d: product(t.d, t.a, t.b, t.c, t.e),
        e: product(t.e, t.a, t.b, t.c, t.d),
    }
}

fn products(times: &[i64], k: usize) -> Five
    requires { k ≤ 1099511627776 }
    ensures { result ≡ products_at times.now k }
{
    let t = moments(times, k);
    products_of(t)
}

fn apart(p: Five) -> bool
    ensures { result ≡ apart_of p }
{
    [p.a, p.b, p.c, p.d, p.e].iter().all(|x| *x != 0.0)
}

fn weights(p: Five) -> Five
    ensures { result ≡ weights_of p }
{
    Five {
        a: 1.0 / p.a,
        b: 1.0 / p.b,
        c: 1.0 / p.c,
        d: 1.0 / p.d,
        e: 1.0 / p.e,
    }
}

// Number k; past the last, NaN.
pub fn number_at(l: &[f64], k: usize) -> f64
    ensures { result ≡ get_or l.now k nan }
{
    match l.get(k) {
        Some(x) => *x,
        None => 0.0 / 0.0,
    }
}

fn frequencies(freqs: &[f64], k: usize) -> Five
    requires { k ≤ 1099511627776 }
    ensures { result ≡ frequencies_at freqs.now k }
{
    Five {
        a: number_at(freqs, k),
        b: number_at(freqs, k + 1),
        c: number_at(freqs, k + 2),
        d: number_at(freqs, k + 3),
        e: number_at(freqs, k + 4),
    }
}

fn difference(w: Five, f: Five) -> f64
    ensures { result ≡ difference_of w f }
{
    w.a * f.a + w.b * f.b + w.c * f.c + w.d * f.d + w.e * f.e
}

fn size(w: Five) -> f64
    ensures { result ≡ weight_size w }
{
    roots::sqrt(w.a * w.a + w.b * w.b + w.c * w.c + w.d * w.d + w.e * w.e)
}

// The five samples from k on.
fn window(times: &[i64], freqs: &[f64], k: usize, s: Sums) -> Sums
    requires { k ≤ 1099511627776 }
    ensures { result ≡ window_of times.now freqs.now k s }
{
    let p = products(times, k);
    if !apart(p) {
        return s;
    }
    let w = weights(p);
    let n = difference(w, frequencies(freqs, k)) / size(w);
    Sums {
        squares: s.squares + n * n,
        windows: s.windows + 1.0,
        ..s
    }
}

// Those that begin at samples from `at` up to `end`.
fn windows(times: &[i64], freqs: &[f64], at: usize, end: usize, s: Sums) -> Sums
    requires { end ≤ 1099511627776 }
    ensures { result ≡ windows_of times.now freqs.now at end s }
{
    let mut w = s;
    for k in at..end {
        w = window(times, freqs, k, w);
    }
    w
}

// A pass of n samples more.
fn pass(times: &[i64], freqs: &[f64], n: u32, s: Sums) -> Sums
    requires { s.at ≤ 68719476720 }
    ensures { (result ≡ pass_sums times.now freqs.now n s) × (result.at ≤ s.at + 4294967295) }
{
    let at = s.at;
    let end = at + n as usize;
    if n < 5 {
        return Sums { at: end, ..s };
    }
    let w = windows(times, freqs, at, end - 4, s);
    Sums { at: end, ..w }
}

// The noise of the samples, in Hz. NaN where no pass has five neighbouring samples with unlike moments, where the sizes disagree with the
// arrays or are too large, and where a moment is out of range.
pub fn estimate(counts: &[u32], times: &[i64], freqs: &[f64]) -> f64
    ensures { result ≡ estimate_of counts.now times.now freqs.now }
{
    if !pass_set::sizes_agree(counts, times.len(), freqs.len(), counts.len()) {
        return 0.0 / 0.0;
    }
    let mut s = Sums {
        squares: 0.0,
        windows: 0.0,
        at: 0,
    };
    for n in counts {
        s = pass(times, freqs, *n, s);
    }
    roots::sqrt(s.squares / s.windows)
}

fn bound(estimate: f64) -> f64
    ensures { result ≡ bound_of estimate }
{
    1.25 * float::max(estimate, 0.5)
}

// How many times the noise a residual is; a noise below half a Hz counts as half a Hz.
pub fn ratio(rms: f64, estimate: f64) -> f64
    ensures { result ≡ ratio_of rms estimate }
{
    rms / float::max(estimate, 0.5)
}

// What a residual says of a fit over so many passes with samples.
pub fn verdict(rms: f64, estimate: f64, passes: usize) -> Finding
    ensures { result ≡ verdict_of rms estimate passes }
{
    if passes < 3 {
        return Finding::TwoPasses;
    }
    if rms != rms || !(estimate < 1.0 / 0.0) {
        return Finding::Untold;
    }
    if rms <= bound(estimate) {
        return Finding::AtNoise;
    }
    Finding::Doubtful
}
