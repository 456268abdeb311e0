// The residuals of a set of parameters and their penalised sum, for both refinements: what a trial compares. Definitions in
// specs/. `SECOND` says which refinement: in the first a pass has two biases, in the second four.
// The functions of this crate are called with what they require by the crates above, which meet it by proof.
#![tactic(auto)]

pub mod observations;

ghost use Rattle.std.specs.Prelude.{◌≡◌, true, ◌+◌, ◌*◌, ◌<◌, ◌≤◌, length, take};
ghost use Rattle.std.specs.Float.Ieee.{neg};
ghost use Rattle.float.specs.Ops.{bits};
ghost use Rattle.moment.specs.Origin.{count1957, count2057};
ghost use Rattle.moment.specs.Sample.{time_in_range, Timed};
ghost use Rattle.moment.specs.Time.{nanos_of, tau_millis_of, Sound};
ghost use Rattle.residuals.specs.Samples.{count_at, counts_at, instant_of, rotation_at, DatedTimes, Rotations};
ghost use Rattle.residuals.specs.Residuals.{
  elements_of,
  place_of,
  dt_of,
  pass_bias,
  bias_at,
  near_of,
  residual,
  passes,
  dt_penalties,
  drift_penalties,
  rows_of,
  residuals,
  sum_squares,
};
ghost use Rattle.residuals.specs.Answers.{passes_in, Filled, Summed};

use float::trig::SinCos;
use moment::Instant;
use observations::Observations;
use orbit::Elements;
use orbit::doppler::DfPoly;
use refusal::Refusal;

// Parameters of 16 passes.
pub const PARAMS: usize = 68;

// Residuals of 4,096 samples in 16 passes, with their penalties.
pub const ROWS: usize = 4144;

// A set of parameters of either refinement.
#[derive(Clone, Copy)]
pub struct Point<const SECOND: bool> {
    pub params: [f64; PARAMS],
}

// A pass's frequency bias: df, or df0 with its first two derivatives.
#[derive(Clone, Copy)]
pub enum Bias {
    Constant(f64),
    Polynomial(DfPoly),
}

// ---- a set's parts

pub fn elements_of(x: [f64; PARAMS]) -> Elements
    ensures { result ≡ elements_of x }
{
    Elements {
        a: x[0],
        i: x[1],
        raan0: x[2],
        u0: x[3],
    }
}

// Where the biases of pass p begin.
pub fn place_of<const SECOND: bool>(p: usize) -> usize
    requires { p ≤ 16 }
    ensures { (result ≡ place_of SECOND p) × (result ≤ 4 + 4 * p) × (4 ≤ result) }
{
    if SECOND { 4 + 4 * p } else { 4 + 2 * p }
}

impl<const SECOND: bool> Point<SECOND> {
    fn dt(&self, p: usize) -> f64
        requires { p < 16 }
        ensures { result ≡ dt_of SECOND self.now.params p }
    {
        self.params[place_of::<SECOND>(p)]
    }

    fn bias(&self, p: usize) -> Bias
        requires { p < 16 }
        ensures { result ≡ pass_bias SECOND self.now.params p }
    {
        let x = &self.params;
        if SECOND {
            Bias::Polynomial(DfPoly(x[4 + 4 * p + 1], x[4 + 4 * p + 2], x[4 + 4 * p + 3]))
        } else {
            Bias::Constant(x[4 + 2 * p + 1])
        }
    }

    // Writes the penalties on dt, one for each pass.
    fn dt_penalties(&self, out: &mut [f64])
        requires { length out.old ≤ 16 }
        ensures { out.new ≡ dt_penalties SECOND self.now.params 0 (length out.old) }
    {
        for (p, penalty) in out.iter_mut().enumerate() {
            *penalty = self.dt(p) * 10.0;
        }
    }

    // Writes the penalties on df1 and df2, two for each pass.
    fn drift_penalties(&self, passes: usize, out: &mut [f64])
        requires { (passes ≤ 16) × (length out.old ≡ 2 * passes) }
        ensures { out.new ≡ drift_penalties self.now.params 0 passes }
    {
        for p in 0..passes {
            out[2 * p] = self.params[4 + 4 * p + 2] * 100.0;
            out[2 * p + 1] = self.params[4 + 4 * p + 3] * 10000.0;
        }
    }
}

// ---- a sample's moment and rotation

fn count_at(t: i64) -> u64
    requires { time_in_range t ≡ true }
    ensures { result ≡ count_at t }
{
    (t + moment::COUNT_1970) as u64
}

// Writes the counts of all sample times to the first places of out.
pub fn counts_at(times: &[i64], out: &mut [u64])
    requires { Timed times.now × (length times.now ≤ length out.old) }
    ensures { take (length times.now) out.new ≡ counts_at times.now }
{
    for (k, &t) in times.iter().enumerate() {
        out[k] = count_at(t);
    }
}

// A sample's moment from its count of nanoseconds.
fn instant(n: u64) -> Instant
    ensures { (result ≡ instant_of n) × Sound result.secs result.nanos }
{
    Instant {
        secs: n / 1000000000 + moment::COUNTS_START,
        nanos: (n % 1000000000) as u32,
    }
}

// The Earth's rotation at a sample's moment.
fn rotation_at(n: u64) -> SinCos
    requires { (count1957 ≤ n) × (n < count2057) }
    ensures { result ≡ rotation_at n }
{
    frame::rotation(frame::jd_at(instant(n)))
}

// Writes the rotations of all samples, which no set of parameters changes, to the first places of turns.
pub fn rotations(times: &[u64], turns: &mut [f64])
    requires { DatedTimes times.now × (length times.now ≤ 4096) × (2 * length times.now ≤ length turns.old) }
    ensures { Rotations times.now turns.new }
{
    for (k, &t) in times.iter().enumerate() {
        let r = rotation_at(t);
        turns[2 * k] = r.sin;
        turns[2 * k + 1] = r.cos;
    }
}

// ---- a sample's residual

fn near_of(b: Bias) -> f64
    ensures { result ≡ near_of b }
{
    match b {
        Bias::Constant(df) => df,
        Bias::Polynomial(d) => d.0,
    }
}

// The bias at the moment t of a pass whose first sample was at `since`.
fn bias_at(b: Bias, t: Instant, since: Instant) -> f64
    requires { Sound t.secs t.nanos × Sound since.secs since.nanos }
    ensures { result ≡ bias_at b (tau_millis_of (nanos_of t.secs t.nanos) (nanos_of since.secs since.nanos)) }
{
    match b {
        Bias::Constant(df) => df,
        Bias::Polynomial(d) => orbit::doppler::bias_at(d, moment::time::tau_millis(t, since)),
    }
}

// ---- all residuals

// Writes the residuals of all samples, pass by pass; refused, by 23, at the first moment that is too far.
fn sample_residuals<const SECOND: bool>(
    set: &Point<SECOND>,
    obs: &Observations,
    out: &mut [f64],
) -> Result<(), Refusal>
    requires { length obs.now.times.now ≤ length out.old }
    ensures { Filled result (take (length obs.now.times.now) out.new)
        (passes (residual SECOND obs.now.station (passes_in obs.now) set.now.params) 0 0 obs.now.counts.now) }
{
    let sight = orbit::doppler::sight_of(obs.station, elements_of(set.params));
    let mut answer = Ok(());
    let mut k = 0usize;
    'passes: for (p, &count) in obs.counts.iter().enumerate() {
        let first = k;
        let end = first + count as usize;
        let dt = set.dt(p);
        let b = set.bias(p);
        for j in first..end {
            match obs.shift(sight, dt, b, first, j) {
                Ok(v) => out[j] = obs.freqs[j] - (obs.station.center_freq + v),
                Err(far) => {
                    answer = Err(far);
                    break 'passes;
                }
            }
        }
        k = end;
    }
    answer
}

// How many residuals there are.
pub fn rows_of<const SECOND: bool>(samples: usize, passes: usize) -> usize
    requires { (samples ≤ 4096) × (passes ≤ 16) }
    ensures { (result ≡ rows_of SECOND samples passes) × (result ≤ samples + 3 * passes) }
{
    if SECOND {
        samples + 3 * passes
    } else {
        samples + passes
    }
}

// Writes the residuals of a set to the first places of out. Refused: 23.
pub fn residuals_into<const SECOND: bool>(
    set: &Point<SECOND>,
    obs: &Observations,
    out: &mut [f64],
) -> Result<(), Refusal>
    requires { length obs.now.times.now + 3 * length obs.now.counts.now ≤ length out.old }
    ensures { Filled result (take (rows_of SECOND (length obs.now.times.now) (length obs.now.counts.now)) out.new)
        (residuals SECOND obs.now.station (passes_in obs.now) set.now.params) }
{
    sample_residuals(set, obs, out)?;
    let (n, m) = (obs.times.len(), obs.counts.len());
    set.dt_penalties(&mut out[n..n + m]);
    if SECOND {
        set.drift_penalties(m, &mut out[n + m..n + 3 * m]);
    }
    Ok(())
}

// The squares of all numbers, added in order from -0.0 on.
fn sum_squares(r: &[f64]) -> f64
    ensures { result ≡ sum_squares (neg (bits 0)) r.now }
{
    r.iter().map(|v| v * v).sum()
}

// What a trial compares, with the residuals left in the first places of out.
pub fn penalised_sum<const SECOND: bool>(
    set: &Point<SECOND>,
    obs: &Observations,
    out: &mut [f64],
) -> Result<f64, Refusal>
    requires { length obs.now.times.now + 3 * length obs.now.counts.now ≤ length out.old }
    ensures { Summed (take (rows_of SECOND (length obs.now.times.now) (length obs.now.counts.now)) out.new)
        (residuals SECOND obs.now.station (passes_in obs.now) set.now.params) result }
{
    residuals_into(set, obs, out)?;
    Ok(sum_squares(&out[..obs.rows::<SECOND>()]))
}
