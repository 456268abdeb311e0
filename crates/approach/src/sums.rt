// The sum of squares of a pass set, and its four differences. Inner functions: they ask for an epoch that passed refusal 4.
ghost use Rattle.std.specs.Prelude.{◌≡◌, ◌<◌, length};
ghost use Rattle.frame.specs.Rotation.{turn_at};
ghost use Rattle.moment.specs.Range.{Within};
ghost use Rattle.approach.specs.Sums.{prediction_at, sample_of, samples_of, pass_sum_of, rss_of, gradient_of, Shifted};
ghost use Rattle.approach.specs.Turns.{listed, Shift, Held, Windowed, Sampled, moments};

use crate::turns::Prepared;
use crate::{Gradient, View};
use float::trig::SinCos;
use moment::Instant;
use orbit::Elements;
use orbit::doppler::Station;
use pass_set::Pass;

// A prediction with no bias, by the Earth's rotation at t. By what is asked of dt no adjusted moment is too far.
fn shift_at(v: View, dt: f64, t: Instant, turn: SinCos) -> f64
    requires { Shift dt × Within 0 t.secs t.nanos × (turn ≡ turn_at t.secs t.nanos) }
    ensures { Shifted result (prediction_at v.sight.station v.sight.e dt t) }
{
    orbit::doppler::predict(v.sight, t, turn, dt, 0.0, 0.0).unwrap()
}

// Adds the square of sample n's frequency less centre and prediction. Its entry in the table is j.
fn sample(v: View, dt: f64, table: Option<&[f64]>, j: usize, pass: &Pass, n: usize, rss: f64) -> f64
    requires { Shift dt × (n < length pass.now.freqs.now) × Held (listed table) j (moments pass.now.times.now n).secs (moments pass.now.times.now n).nanos }
    ensures { result ≡ sample_of v.sight.station v.sight.e dt pass.now.times.now pass.now.freqs.now n rss }
{
    let freq = pass.freqs[n];
    let t = crate::pca::moment_at(pass.times, n);
    let turn = crate::turns::turn_at(table, j, t);
    let pred_f = shift_at(v, dt, t, turn);
    let diff = freq - (v.sight.station.center_freq + pred_f);
    rss + diff * diff
}

// Adds each sample's. Their entries in the table are from `at` on.
fn samples(v: View, dt: f64, table: Option<&[f64]>, at: usize, pass: &Pass, rss: f64) -> f64
    requires { Shift dt × Sampled (listed table) at pass.now.times.now }
    ensures { result ≡ samples_of v.sight.station v.sight.e dt pass.now.times.now pass.now.freqs.now rss }
{
    let mut sum = rss;
    for n in 0..pass.freqs.len() {
        sum = sample(v, dt, table, at + n, pass, n, sum);
    }
    sum
}

// Adds one pass: its closest moment, predicted by the first pass's centre, against the observed, and each of its samples. Its
// window is at `at` of the table, its samples' entries are from `from` on.
fn pass_sum(
    v: View,
    first: f64,
    table: Option<&[f64]>,
    at: usize,
    from: usize,
    pass: &Pass,
    rss: f64,
) -> f64
    requires { Windowed (listed table) at first pass.now.times.now pass.now.freqs.now × Sampled (listed table) from pass.now.times.now }
    ensures { result ≡ pass_sum_of v.sight.station v.sight.e first pass.now.times.now pass.now.freqs.now rss }
{
    if pass.freqs.len() == 0 {
        return rss;
    }
    let center = v.sight.station.center_freq;
    let pred = crate::pca::pred_pca_time(v, first, table, at, pass);
    let obs = crate::pca::obs_pca_time(pass, center);
    let dt = moment::time::tau_millis(pred, obs);
    samples(v, dt, table, from, pass, rss + 100.0 * dt * dt)
}

// The sum of a pass set, with no refusal: what the search for a start works with.
pub fn rss(w: &Prepared, g: Station, e: Elements) -> f64
    requires { Within 0 g.epoch.secs g.epoch.nanos }
    ensures { result ≡ rss_of g e w.now.set.counts.now w.now.set.times.now w.now.set.freqs.now w.now.set.centers.now }
{
    let mut sum = 0.0;
    let set = w.set;
    if set.counts.len() == 0 {
        return sum;
    }
    let v = crate::seen(g, e);
    let first = set.centers[0];
    let from = crate::turns::WINDOW * set.counts.len();
    let mut k = 0usize;
    for (p, &count) in set.counts.iter().enumerate() {
        let pass = set.pass(p, k);
        sum = pass_sum(
            v,
            first,
            w.table,
            crate::turns::WINDOW * p,
            from + k,
            &pass,
            sum,
        );
        k += count as usize;
    }
    sum
}

// The sum's four differences, each by one number of the orbit.
pub fn gradient(w: &Prepared, g: Station, e: Elements) -> Gradient
    requires { Within 0 g.epoch.secs g.epoch.nanos }
    ensures { result ≡ gradient_of g e w.now.set.counts.now w.now.set.times.now w.now.set.freqs.now w.now.set.centers.now }
{
    let rss_base = rss(w, g, e);
    let eps_a = 1000.0;
    let mut by_a = e;
    by_a.a = e.a + eps_a;
    let rss_a = rss(w, g, by_a);
    let eps = 1e-4;
    let mut by_i = e;
    by_i.i = e.i + eps;
    let rss_i = rss(w, g, by_i);
    let mut by_raan = e;
    by_raan.raan0 = e.raan0 + eps;
    let rss_raan = rss(w, g, by_raan);
    let mut by_u0 = e;
    by_u0.u0 = e.u0 + eps;
    let rss_u0 = rss(w, g, by_u0);
    Gradient {
        grad_a: (rss_a - rss_base) / eps_a,
        grad_i: (rss_i - rss_base) / eps,
        grad_raan: (rss_raan - rss_base) / eps,
        grad_u0: (rss_u0 - rss_base) / eps,
    }
}
