// What the predictions of a fit share.

ghost use Rattle.std.specs.Prelude.{◌≡◌, ◌+◌, ◌*◌, ◌<◌, ◌≤◌, length, get_or};
ghost use Rattle.moment.specs.Time.{Sound};
ghost use Rattle.orbit.specs.Doppler.{sight_of};
ghost use Rattle.residuals.specs.Samples.{passes_of, rotation_at, Samples};
ghost use Rattle.residuals.specs.Residuals.{prediction_of, rows_of};

use crate::{Bias, bias_at, instant, near_of, rows_of};
use float::trig::SinCos;
use orbit::doppler::{Sight, Station};
use refusal::Refusal;

// The station; how many samples each pass has; each sample's moment as a count, and its
// frequency; and in turns the rotations.
#[derive(Clone, Copy)]
pub struct Observations<'a> {
    pub station: Station,
    pub counts: &'a [u32],
    pub times: &'a [u64],
    pub freqs: &'a [f64],
    pub turns: &'a [f64],
    ghost held: { Samples station (passes_of counts.now times.now freqs.now) turns.now },
}

impl Observations<'_> {
    // The rotation at sample k.
    fn turn(&self, k: usize) -> SinCos
        requires { k < length self.now.times.now }
        ensures { result ≡ rotation_at (get_or self.now.times.now k 0) }
    {
        SinCos {
            sin: self.turns[2 * k],
            cos: self.turns[2 * k + 1],
        }
    }

    // The shift of sample k of a pass that begins with sample `first`.
    pub(crate) fn shift(
        &self,
        v: Sight,
        dt: f64,
        b: Bias,
        first: usize,
        k: usize,
    ) -> Result<f64, Refusal>
        requires { Sound v.station.epoch.secs v.station.epoch.nanos
            × (first < length self.now.times.now) × (k < length self.now.times.now) × (v ≡ sight_of v.station v.e) }
        ensures { result ≡ prediction_of v.station self.now.times.now v.e dt b first k }
    {
        let t = instant(self.times[k]);
        let since = instant(self.times[first]);
        let bias = bias_at(b, t, since);
        orbit::doppler::predict(v, t, self.turn(k), dt, near_of(b), bias)
    }

    // How many residuals there are.
    pub fn rows<const SECOND: bool>(&self) -> usize
        ensures { (result ≡ rows_of SECOND (length self.now.times.now) (length self.now.counts.now))
            × (result ≤ length self.now.times.now + 3 * length self.now.counts.now) }
    {
        rows_of::<SECOND>(self.times.len(), self.counts.len())
    }
}
