// Predicted moments of closest approach, and the sum of squares that the search for a start makes small.
#![tactic(auto)]

pub mod pca;
pub mod sums;
pub mod turns;

ghost use Rattle.std.specs.Prelude.{◌≡◌, MatchResult, Some};
ghost use Rattle.moment.specs.Range.{Within};
ghost use Rattle.orbit.specs.Doppler.{sight_of};
ghost use Rattle.approach.specs.Answers.{set_refusal_of, Accepts, FindsPcas, compute_rss_of, compute_gradient_of};

use frame::Vec3;
use moment::{Instant, Moment};
use orbit::Elements;
use orbit::doppler::{Sight, Station};
use pass_set::PassSet;
use refusal::Refusal;
use turns::Prepared;

// The sum's differences by a, i, raan0 and u0, each over its step.
#[derive(Clone, Copy)]
pub struct Gradient {
    pub grad_a: f64,
    pub grad_i: f64,
    pub grad_raan: f64,
    pub grad_u0: f64,
}

// A sample's distance from the centre frequency, and which it is.
#[derive(Clone, Copy)]
pub struct Nearest {
    pub offset: f64,
    pub at: usize,
}

// The square of the least distance so far, and the seconds of its moment.
#[derive(Clone, Copy)]
pub struct Closest {
    pub dist: f64,
    pub secs: u64,
}

// A stage of the search for the closest moment: n moments, step seconds apart, from half seconds before the best so far.
#[derive(Clone, Copy)]
pub struct Stage {
    pub half: u64,
    pub step: u64,
    pub n: u64,
}

// An orbit seen from a station whose epoch passed refusal 4, with its own rates and potential.
#[derive(Clone, Copy)]
pub struct View {
    pub sight: Sight,
    ghost seen: { sight ≡ sight_of sight.station sight.e },
    ghost dated: { Within 0 sight.station.epoch.secs sight.station.epoch.nanos },
}

pub fn seen(g: Station, e: Elements) -> View
    requires { Within 0 g.epoch.secs g.epoch.nanos }
    ensures { (result.sight.station ≡ g) × (result.sight.e ≡ e) }
{
    View {
        sight: orbit::doppler::sight_of(g, e),
    }
}

// Refused: 4, a sample is outside 1957 to 2057; 5, sizes.
fn accept_set<'a>(
    counts: &'a [u32],
    times: &'a [i64],
    freqs: &'a [f64],
    centers: &'a [f64],
) -> Result<PassSet<'a>, Refusal>
    ensures { MatchResult result (Accepts counts.now times.now freqs.now centers.now) (λ r. set_refusal_of counts.now times.now freqs.now centers.now ≡ Some r) }
{
    if !moment::sample::all_in_range(times) {
        return Err(Refusal::MomentRange);
    }
    if !pass_set::sizes_agree(counts, times.len(), freqs.len(), centers.len()) {
        return Err(Refusal::Sizes);
    }
    Ok(PassSet {
        counts,
        times,
        freqs,
        centers,
    })
}

// The predicted moment of closest approach of each pass, in nanoseconds since 1970, into the first places of out: the
// closest of 61, then 21, then 5 moments around the sample closest to the first pass's centre. An empty pass has the epoch.
// Refused: 4, the epoch or a sample is outside 1957 to 2057; 5, sizes; 21, out is shorter than counts.
pub fn get_pred_pca_times(
    a: f64,
    i: f64,
    raan: f64,
    u0: f64,
    epoch: Moment,
    rec_ecef: Vec3,
    counts: &[u32],
    times: &[i64],
    freqs: &[f64],
    centers: &[f64],
    out: &mut [i64],
) -> Result<(), Refusal>
    ensures { FindsPcas a i raan u0 epoch rec_ecef counts.now times.now freqs.now centers.now out.old out.new result }
{
    let t = Instant::try_from(epoch)?;
    let set = accept_set(counts, times, freqs, centers)?;
    if out.len() < counts.len() {
        return Err(Refusal::ShortMemory);
    }
    let g = Station {
        epoch: t,
        center_freq: 0.0,
        rec_ecef,
    };
    let e = Elements {
        a,
        i,
        raan0: raan,
        u0,
    };
    pca::pca_times(g, e, &set, out);
    Ok(())
}

// The sum of squares: for each pass 100 times the square of its closest moment's seconds from the observed one, and the
// square of each sample's frequency less centre and prediction. Refused: 4 and 5, as above.
pub fn compute_rss(
    counts: &[u32],
    times: &[i64],
    freqs: &[f64],
    centers: &[f64],
    rec_ecef: Vec3,
    initial_a: f64,
    initial_i: f64,
    epoch: Moment,
    center_freq: f64,
    raan0: f64,
    u0: f64,
) -> Result<f64, Refusal>
    ensures { result ≡ compute_rss_of epoch center_freq rec_ecef (record { a = initial_a; i = initial_i; raan0 = raan0; u0 = u0 }) counts.now times.now freqs.now centers.now }
{
    let t = Instant::try_from(epoch)?;
    let set = accept_set(counts, times, freqs, centers)?;
    let g = Station {
        epoch: t,
        center_freq,
        rec_ecef,
    };
    let e = Elements {
        a: initial_a,
        i: initial_i,
        raan0,
        u0,
    };
    Ok(sums::rss(&Prepared { set, table: None }, g, e))
}

// The sum's differences: 1000 m on a, 1e-4 rad on i, raan0 and u0, each over its step. Refused: 4 and 5, as above.
pub fn compute_gradient(
    counts: &[u32],
    times: &[i64],
    freqs: &[f64],
    centers: &[f64],
    rec_ecef: Vec3,
    a: f64,
    i: f64,
    epoch: Moment,
    center_freq: f64,
    raan0: f64,
    u0: f64,
) -> Result<Gradient, Refusal>
    ensures { result ≡ compute_gradient_of epoch center_freq rec_ecef (record { a = a; i = i; raan0 = raan0; u0 = u0 }) counts.now times.now freqs.now centers.now }
{
    let t = Instant::try_from(epoch)?;
    let set = accept_set(counts, times, freqs, centers)?;
    let g = Station {
        epoch: t,
        center_freq,
        rec_ecef,
    };
    let e = Elements { a, i, raan0, u0 };
    Ok(sums::gradient(&Prepared { set, table: None }, g, e))
}
