// The numbers of the report.
ghost use Rattle.std.specs.Prelude.{◌≡◌, ◌+◌, ◌≤◌};
ghost use Rattle.std.specs.Float.{nan};
ghost use Rattle.orbit.specs.Doppler.{frequency_of};
ghost use Rattle.command.specs.Report.{moment_in, sample_moment, residual_of, square_of, squares_of, biases_at, walk_pass, rms_of, no_biases, biases_of};

use frame::Vec3;
use moment::Moment;
use orbit::doppler;
use orbit::doppler::DfPoly;
use refusal::Refusal;
use solution::SolvedOrbit;

// What all predictions share: the fit's orbit and centre frequency, and the mast.
#[derive(Clone, Copy)]
pub struct Fitted {
    pub orbit: SolvedOrbit,
    pub center_freq: f64,
    pub rec_ecef: Vec3,
}

// What the samples of a pass share: its biases, and the first sample's moment.
#[derive(Clone, Copy)]
pub struct Pass {
    pub dt: f64,
    pub df: DfPoly,
    pub since: Moment,
}

// The biases of a pass that has samples; NaN of one that has none.
#[derive(Clone, Copy)]
pub struct Biases {
    pub sampled: bool,
    pub dt: f64,
    pub df: f64,
    pub df1: f64,
    pub df2: f64,
}

// What a walk over the passes has come to: the squares added, the next sample, and the number of non-empty passes.
#[derive(Clone, Copy)]
pub struct Walk {
    pub sum: f64,
    pub at: usize,
    pub passes: usize,
}

// A sample's moment; of a time out of range, one that no prediction takes.
fn moment_in(t: i64) -> Moment
    ensures { result ≡ moment_in t }
{
    if moment::sample::in_range(t) {
        return moment::sample::to_moment(t);
    }
    Moment {
        seconds: 0,
        nanos: 1000000000,
    }
}

// Sample k's moment; past the last sample, one that no prediction takes.
fn moment_at(times: &[i64], k: usize) -> Moment
    ensures { result ≡ sample_moment times.now k }
{
    if k < times.len() {
        return moment_in(times[k]);
    }
    Moment {
        seconds: 0,
        nanos: 1000000000,
    }
}

fn frequency(p: Result<f64, Refusal>) -> f64
    ensures { result ≡ frequency_of p }
{
    p.unwrap_or(f64::NAN)
}

fn residual(g: Fitted, b: Pass, m: Moment, f: f64) -> f64
    ensures { result ≡ residual_of g b m f }
{
    let o = g.orbit;
    let epoch = o.epoch;
    let df = b.df;
    let since = b.since;
    let rec = g.rec_ecef;
    let center = g.center_freq;
    let p = doppler::predict_frequency_poly(
        o.a, o.i, o.raan0, o.u0, epoch, m, b.dt, df, since, center, rec,
    );
    f - (center + frequency(p))
}

// The square of a sample's residual added.
fn square(times: &[i64], freqs: &[f64], g: Fitted, b: Pass, k: usize, sum: f64) -> f64
    ensures { result ≡ square_of times.now freqs.now g b k sum }
{
    let r = residual(g, b, moment_at(times, k), noise::number_at(freqs, k));
    sum + r * r
}

fn squares(times: &[i64], freqs: &[f64], g: Fitted, b: Pass, at: usize, end: usize, sum: f64) -> f64
    ensures { result ≡ squares_of times.now freqs.now g b at end sum }
{
    let mut s = sum;
    for k in at..end {
        s = square(times, freqs, g, b, k, s);
    }
    s
}

// Those of the q-th non-empty pass.
fn biases_at(dts: &[f64], dfs: &[f64], df1s: &[f64], df2s: &[f64], q: usize) -> Biases
    ensures { result ≡ biases_at dts.now dfs.now df1s.now df2s.now q }
{
    Biases {
        sampled: true,
        dt: noise::number_at(dts, q),
        df: noise::number_at(dfs, q),
        df1: noise::number_at(df1s, q),
        df2: noise::number_at(df2s, q),
    }
}

// One pass more, of n samples; an empty one is nothing.
fn walk_pass(times: &[i64], freqs: &[f64], g: Fitted, b: Biases, n: u32, w: Walk) -> Walk
    requires { (w.at ≤ 68719476720) × (w.passes ≤ 16) }
    ensures { (result ≡ walk_pass times.now freqs.now g b n w) × (result.at ≤ w.at + 4294967295) × (result.passes ≤ w.passes + 1) }
{
    if n == 0 {
        return w;
    }
    let at = w.at;
    let df = DfPoly(b.df, b.df1, b.df2);
    let since = moment_at(times, at);
    let pass = Pass {
        dt: b.dt,
        df,
        since,
    };
    let end = at + n as usize;
    let sum = squares(times, freqs, g, pass, at, end, w.sum);
    Walk {
        sum,
        at: end,
        passes: w.passes + 1,
    }
}

// The root of the mean square of all samples' residuals, in Hz, for an orbit and its biases, of which each non-empty pass has four.
// NaN where there are over 16 passes, no centre for each, or no sample.
pub fn rms(
    counts: &[u32],
    times: &[i64],
    freqs: &[f64],
    centers: &[f64],
    rec_ecef: Vec3,
    orbit: SolvedOrbit,
    dts: &[f64],
    dfs: &[f64],
    df1s: &[f64],
    df2s: &[f64],
) -> f64
    ensures { result ≡ rms_of counts.now times.now freqs.now centers.now rec_ecef orbit dts.now dfs.now df1s.now df2s.now }
{
    if 16 < counts.len() {
        return 0.0 / 0.0;
    }
    if centers.len() != counts.len() {
        return 0.0 / 0.0;
    }
    let g = Fitted {
        orbit,
        center_freq: arguments::first_center(counts, centers),
        rec_ecef,
    };
    let mut w = Walk {
        sum: 0.0,
        at: 0,
        passes: 0,
    };
    for n in counts {
        let b = biases_at(dts, dfs, df1s, df2s, w.passes);
        w = walk_pass(times, freqs, g, b, *n, w);
    }
    let n = w.at;
    roots::sqrt(w.sum / std::num::nearest_u64_to_f64(n as u64))
}

fn no_biases() -> Biases
    ensures { result ≡ no_biases }
{
    Biases {
        sampled: false,
        dt: 0.0 / 0.0,
        df: 0.0 / 0.0,
        df1: 0.0 / 0.0,
        df2: 0.0 / 0.0,
    }
}

// Those of pass p among the biases of a fit, which has some for each non-empty pass. Past the last pass, or with over 16, there are
// none.
pub fn biases_of(
    counts: &[u32],
    p: usize,
    dts: &[f64],
    dfs: &[f64],
    df1s: &[f64],
    df2s: &[f64],
) -> Biases
    ensures { result ≡ biases_of counts.now p dts.now dfs.now df1s.now df2s.now }
{
    if 16 < counts.len() {
        return no_biases();
    }
    if counts.len() <= p {
        return no_biases();
    }
    if counts[p] == 0 {
        return no_biases();
    }
    let before = arguments::non_empty(&counts[..p]);
    biases_at(dts, dfs, df1s, df2s, before.passes)
}
