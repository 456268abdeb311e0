// What a fit works with, and where its two refinements start from it.
#![tactic(auto)]

ghost use Rattle.std.specs.Prelude.{◌≡◌, ◌<◌, length, replicate};
ghost use Rattle.moment.specs.Range.{Within};
ghost use Rattle.pass_set.specs.PassSet.{pass_of, AtPass};
ghost use Rattle.approach.specs.Sums.{dt_of};
ghost use Rattle.start.specs.Start.{
  SampledPasses,
  add_period,
  mean_period,
  radius_of,
  obs_of,
  periods_of,
  radius_estimate,
  with_elements,
  pass_dt,
  starting_set,
};

use approach::View;
use moment::Instant;
use orbit::Elements;
use orbit::doppler::Station;
use pass_set::{Pass, PassSet};
use residuals::PARAMS;

// Passes with a sample in each, as a fit keeps them: a set that passed refusals 4 and 5, without its centres.
#[derive(Clone, Copy)]
pub struct NonEmptyPasses<'a> {
    pub counts: &'a [u32],
    pub times: &'a [i64],
    pub freqs: &'a [f64],
    ghost sampled: { SampledPasses counts.now times.now freqs.now },
}

// The non-empty passes of a fit, a sample in each, and the station that received them: the first sample's moment as epoch, and one
// centre for all passes.
#[derive(Clone, Copy)]
pub struct Recording<'a> {
    pub set: PassSet<'a>,
    pub station: Station,
    ghost sampled: { SampledPasses set.counts.now set.times.now set.freqs.now },
    ghost dated: { Within 0 station.epoch.secs station.epoch.nanos },
    ghost centred: { set.centers.now ≡ replicate (length set.counts.now) station.center_freq },
}

// ---- the radius

// Periods of revolution: their sum in seconds, and how many there are.
#[derive(Clone, Copy)]
pub struct Periods {
    pub sum: f64,
    pub count: f64,
}

// dt seconds lie between two passes: one more period, if they are at least one revolution.
fn add_period(s: Periods, dt: f64) -> Periods
    ensures { result ≡ add_period dt s }
{
    let k = float::round(dt / 5700.0);
    if k > 0.0 {
        Periods {
            sum: s.sum + dt / k,
            count: s.count + 1.0,
        }
    } else {
        s
    }
}

fn mean_period(s: Periods) -> f64
    ensures { result ≡ mean_period s }
{
    if s.count > 0.0 {
        s.sum / s.count
    } else {
        5700.0
    }
}

// Kepler's third law, held to the radii that a fit looks among.
fn radius(t: f64) -> f64
    ensures { result ≡ radius_of t }
{
    let a = roots::cube::cbrt(orbit::MU * t * t / (4.0 * float::PI * float::PI));
    float::min(float::max(a, solution::LEAST_A), solution::MOST_A)
}

// ---- a refinement's first set

fn with_elements(e: Elements) -> [f64; PARAMS]
    ensures { result ≡ with_elements e }
{
    let mut x = [0.0; PARAMS];
    x[0] = e.a;
    x[1] = e.i;
    x[2] = e.raan0;
    x[3] = e.u0;
    x
}

// Of one pass's samples: the seconds from the observed closest moment to the predicted one, both by the station's centre.
fn dt_of(pass: &Pass, v: View) -> f64
    requires { 0 < length pass.now.freqs.now }
    ensures { result ≡ dt_of v.sight.station v.sight.e v.sight.station.center_freq pass.now.times.now pass.now.freqs.now }
{
    let center = v.sight.station.center_freq;
    let pred = approach::pca::pred_pca_time(v, center, None, 0, pass);
    let obs = approach::pca::obs_pca_time(pass, center);
    moment::time::tau_millis(pred, obs)
}

impl<'a> NonEmptyPasses<'a> {
    // Pass p, whose samples begin at k.
    fn pass(&self, p: usize, k: usize) -> Pass<'a>
        requires { AtPass self.now.counts.now p k × (p < length self.now.counts.now) }
        ensures times { result.times.now ≡ pass_of self.now.counts.now p self.now.times.now }
        ensures freqs { result.freqs.now ≡ pass_of self.now.counts.now p self.now.freqs.now }
    {
        let end = k + self.counts[p] as usize;
        Pass {
            times: &self.times[k..end],
            freqs: &self.freqs[k..end],
        }
    }

    // The observed closest moment of pass p, whose samples begin at k.
    fn obs_of(&self, center: f64, p: usize, k: usize) -> Instant
        requires { AtPass self.now.counts.now p k × (p < length self.now.counts.now) }
        ensures { (result ≡ obs_of self.now.counts.now self.now.times.now self.now.freqs.now center p) × Within 0 result.secs result.nanos }
    {
        approach::pca::obs_pca_time(&self.pass(p, k), center)
    }

    // Each later pass against the first.
    fn observed_periods(&self, center: f64) -> Periods
        requires { 0 < length self.now.counts.now }
        ensures { result ≡ periods_of self.now.counts.now self.now.times.now self.now.freqs.now center }
    {
        let t0 = self.obs_of(center, 0, 0);
        let mut s = Periods {
            sum: 0.0,
            count: 0.0,
        };
        let mut k = self.counts[0] as usize;
        for p in 1..self.counts.len() {
            let t = self.obs_of(center, p, k);
            s = add_period(s, moment::time::tau_millis(t, t0));
            k += self.counts[p] as usize;
        }
        s
    }

    // The orbit's radius from the times between the passes.
    #[tactic(auto, unfolding(crate::specs::Start::radius_estimate))]
    pub fn radius_estimate(&self, center: f64) -> f64
        requires { 0 < length self.now.counts.now }
        ensures { result ≡ radius_estimate self.now.counts.now self.now.times.now self.now.freqs.now center }
    {
        radius(mean_period(self.observed_periods(center)))
    }

    // The first set of a refinement: the orbit, each pass's dt, and no other bias.
    pub fn starting_set<const SECOND: bool>(&self, g: Station, e: Elements) -> [f64; PARAMS]
        requires { Within 0 g.epoch.secs g.epoch.nanos }
        ensures { result ≡ starting_set self.now.counts.now self.now.times.now self.now.freqs.now g e SECOND }
    {
        let v = approach::seen(g, e);
        let mut x = with_elements(e);
        let mut k = 0usize;
        for (p, &count) in self.counts.iter().enumerate() {
            let dt = dt_of(&self.pass(p, k), v);
            let at = residuals::place_of::<SECOND>(p);
            x[at] = dt;
            k += count as usize;
        }
        x
    }
}

impl<'a> Recording<'a> {
    // Its passes without their centres.
    fn passes(&self) -> NonEmptyPasses<'a>
        ensures counts { result.counts.now ≡ self.now.set.counts.now }
        ensures times { result.times.now ≡ self.now.set.times.now }
        ensures freqs { result.freqs.now ≡ self.now.set.freqs.now }
    {
        NonEmptyPasses {
            counts: self.set.counts,
            times: self.set.times,
            freqs: self.set.freqs,
        }
    }

    // The orbit's radius, by its station's centre.
    pub fn radius_estimate(&self) -> f64
        requires { 0 < length self.now.set.counts.now }
        ensures { result ≡ radius_estimate self.now.set.counts.now self.now.set.times.now self.now.set.freqs.now self.now.station.center_freq }
    {
        self.passes().radius_estimate(self.station.center_freq)
    }

    // The first set of a refinement, seen from its station.
    pub fn starting_set<const SECOND: bool>(&self, e: Elements) -> [f64; PARAMS]
        ensures { result ≡ starting_set self.now.set.counts.now self.now.set.times.now self.now.set.freqs.now self.now.station e SECOND }
    {
        self.passes().starting_set::<SECOND>(self.station, e)
    }
}
