// The closest moments of passes. Inner functions: they ask for moments in range and samples in pairs.
ghost use Rattle.std.specs.Prelude.{◌≡◌, ◌+◌, ◌*◌, ◌≤◌, ◌<◌, length, get_or, pos};
ghost use Rattle.frame.specs.Rotation.{turn_at};
ghost use Rattle.moment.specs.Range.{Within};
ghost use Rattle.moment.specs.Sample.{Timed, instant_at};
ghost use Rattle.approach.specs.Pca.{obs_pca_at, obs_pca_time, square_of, closer_of, searched_of, closest_of, pred_pca_time, pca_times_of};
ghost use Rattle.approach.specs.Turns.{listed, reach, Around, Beside, Window, Windowed, window};

use crate::{Closest, Nearest, Stage, View};
use float::trig::SinCos;
use frame::{State, Vec3};
use moment::Instant;
use orbit::Elements;
use orbit::doppler::Station;
use pass_set::{Pass, PassSet};

// Which sample is closest to the centre frequency.
fn obs_pca_at(freqs: &[f64], center: f64) -> usize
    requires { 0 < length freqs.now }
    ensures { (result ≡ obs_pca_at freqs.now center) × (result < length freqs.now) }
{
    let mut nearest = Nearest {
        offset: float::MAX,
        at: 0,
    };
    for (at, &freq) in freqs.iter().enumerate() {
        let offset = float::abs(freq - center);
        if offset < nearest.offset {
            nearest = Nearest { offset, at };
        }
    }
    nearest.at
}

pub fn moment_at(times: &[i64], k: usize) -> Instant
    requires { Timed times.now × (k < length times.now) }
    ensures { (result ≡ instant_at (get_or times.now k (pos 0))) × Within 0 result.secs result.nanos }
{
    moment::sample::of_nanos(times[k])
}

pub fn obs_pca_time(pass: &Pass, center: f64) -> Instant
    requires { 0 < length pass.now.freqs.now }
    ensures { (result ≡ obs_pca_time pass.now.times.now pass.now.freqs.now center) × Within 0 result.secs result.nanos }
{
    moment_at(pass.times, obs_pca_at(pass.freqs, center))
}

fn square(s: State, rec: Vec3) -> f64
    ensures { result ≡ square_of s rec }
{
    let dx = s.x - rec.x;
    let dy = s.y - rec.y;
    let dz = s.z - rec.z;
    orbit::doppler::dot(dx, dy, dz, dx, dy, dz)
}

// By the Earth's rotation at t.
fn closer(v: View, turn: SinCos, t: Instant, s: Closest) -> Closest
    requires { Within reach t.secs t.nanos × (turn ≡ turn_at t.secs t.nanos) }
    ensures { result ≡ closer_of v.sight.station v.sight.e t.nanos t.secs s }
{
    let sight = v.sight;
    let tau = moment::time::tau(t, sight.station.epoch);
    let d = square(
        orbit::propagate(sight.e, sight.k, tau, turn),
        sight.station.rec_ecef,
    );
    if d < s.dist {
        Closest {
            dist: d,
            secs: t.secs,
        }
    } else {
        s
    }
}

// The closest of a stage's moments, if it is below the best so far. The table's entry `at` is for the second `base`.
fn search_around(
    v: View,
    table: Option<&[f64]>,
    at: usize,
    base: u64,
    nanos: u32,
    stage: Stage,
    s: Closest,
) -> Closest
    requires { Around base stage s.secs nanos × Window (listed table) at base nanos }
    ensures { (result ≡ searched_of v.sight.station v.sight.e nanos stage s) × Beside stage.half s.secs result.secs }
{
    let start = s.secs - stage.half;
    let mut best = s;
    for m in 0..stage.n {
        let secs = start + stage.step * m;
        let t = Instant { secs, nanos };
        let turn = crate::turns::turn_at(table, at + (secs - base) as usize, t);
        best = closer(v, turn, t, best);
    }
    best
}

// Each stage starts from the best so far.
fn closest(v: View, table: Option<&[f64]>, at: usize, t: Instant) -> Instant
    requires { Within 0 t.secs t.nanos × Window (listed table) at (window t) t.nanos }
    ensures { (result ≡ closest_of v.sight.station v.sight.e t) × Within reach result.secs result.nanos }
{
    let nanos = t.nanos;
    let base = t.secs - crate::turns::REACH;
    let mut best = Closest {
        dist: float::MAX,
        secs: t.secs,
    };
    let coarse = Stage {
        half: 600,
        step: 20,
        n: 61,
    };
    let medium = Stage {
        half: 20,
        step: 2,
        n: 21,
    };
    let fine = Stage {
        half: 2,
        step: 1,
        n: 5,
    };
    best = search_around(v, table, at, base, nanos, coarse, best);
    best = search_around(v, table, at, base, nanos, medium, best);
    best = search_around(v, table, at, base, nanos, fine, best);
    Instant {
        secs: best.secs,
        nanos,
    }
}

// The predicted closest moment of one pass, by its sample closest to the centre `first`; an empty pass gives the epoch.
pub fn pred_pca_time(v: View, first: f64, table: Option<&[f64]>, at: usize, pass: &Pass) -> Instant
    requires { Windowed (listed table) at first pass.now.times.now pass.now.freqs.now }
    ensures { (result ≡ pred_pca_time v.sight.station v.sight.e first pass.now.times.now pass.now.freqs.now) × Within reach result.secs result.nanos }
{
    if pass.freqs.len() == 0 {
        return v.sight.station.epoch;
    }
    closest(v, table, at, obs_pca_time(pass, first))
}

// The predicted closest moments of a pass set, one per pass, in nanoseconds since 1970, with no table.
pub fn pca_times(g: Station, e: Elements, set: &PassSet, out: &mut [i64])
    requires { Within 0 g.epoch.secs g.epoch.nanos × (length set.now.counts.now ≤ length out.old) }
    ensures { out.new ≡ pca_times_of g e set.now.counts.now set.now.times.now set.now.freqs.now set.now.centers.now out.old }
{
    if set.counts.len() == 0 {
        return;
    }
    let v = crate::seen(g, e);
    let first = set.centers[0];
    let mut k = 0usize;
    for (p, &count) in set.counts.iter().enumerate() {
        let pass = set.pass(p, k);
        let t = pred_pca_time(v, first, None, 0, &pass);
        out[p] = moment::sample::to_nanos(t);
        k += count as usize;
    }
}
