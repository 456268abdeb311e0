// The search over all starts, residuals, and single trials of both refinements as calls of their own, so that each can be held
// against the original's alone: for `oracle/` and the programs that replay stored answers. The fit does not use them. They take any
// input. Refused: 4 and 5 as elsewhere; 21, the lent memory is shorter than any set needs; 23. A refusal writes nothing. The epoch is
// the first sample's moment; empty passes are passes like others, with biases of their own. `SECOND` says which refinement.
#![tactic(auto)]

ghost use Rattle.std.specs.Prelude.{◌≡◌, ◌*◌, ◌≤◌, length, get_or};
ghost use Rattle.float.specs.Ops.{bits};
ghost use Rattle.refusal.specs.Refusals.{answer};
ghost use Rattle.moment.specs.Range.{Within};
ghost use Rattle.moment.specs.Sample.{Timed};
ghost use Rattle.search.specs.Sum as sums;
ghost use Rattle.search.specs.Search as starts;
ghost use Rattle.residuals.specs.Samples.{first_epoch, station_of};
ghost use Rattle.residuals.specs.Residuals.{residuals};
ghost use Rattle.residuals.specs.Answers.{passes_in};
ghost use Rattle.trials.specs.Trials.{state_search, state_after};
ghost use Rattle.probes.specs.Call.{probe_refusal, fixed_of, Searches, samples_of, Sums, trial_of, TrialCall, Observable};

use book::Ending;
use frame::Vec3;
use moment::Instant;
use orbit::doppler::Station;
use pass_set::{MAX_SAMPLES, PassSet};
use refusal::Refusal;
use residuals::observations::Observations;
use residuals::{PARAMS, Point, ROWS};
use search::problem::Problem;
use search::{Fixed, Found};
use trials::State;

// The room of any set's table of rotations, of its residuals, and of a table of their derivatives.
pub const ROTATIONS: usize = 48032;

pub const TABLE: usize = 281792;

// Rotations of 4,096 samples.
const TURNS: usize = 8192;

// What the residuals and a trial are of, as it is given: the samples of some passes, the centre frequency in Hz, and the receiver.
#[derive(Clone, Copy)]
pub struct Given<'a> {
    pub counts: &'a [u32],
    pub times: &'a [i64],
    pub freqs: &'a [f64],
    pub center_freq: f64,
    pub rec_ecef: Vec3,
}

// ---- what all three share

// Refused: 4, 5 and 21, where `room` is less than `least`.
#[tactic(auto, unfolding(crate::specs::Call::probe_refusal))]
fn accept(
    counts: &[u32],
    times: &[i64],
    freqs: &[f64],
    centres: usize,
    room: usize,
    least: usize,
) -> Result<(), Refusal>
    ensures { result ≡ answer (probe_refusal counts.now times.now freqs.now centres room least) tt }
{
    if !moment::sample::all_in_range(times) {
        return Err(Refusal::MomentRange);
    }
    if !pass_set::sizes_agree(counts, times.len(), freqs.len(), centres) {
        return Err(Refusal::Sizes);
    }
    if room < least {
        return Err(Refusal::ShortMemory);
    }
    Ok(())
}

// The first sample's moment, 1970 where there is none.
fn epoch_of(times: &[i64]) -> Instant
    requires { Timed times.now }
    ensures { (result ≡ first_epoch times.now) × Within 0 result.secs result.nanos }
{
    if times.len() == 0 {
        return moment::sample::of_nanos(0);
    }
    approach::pca::moment_at(times, 0)
}

// What the predictions share.
fn station(times: &[i64], center_freq: f64, rec_ecef: Vec3) -> Station
    requires { Timed times.now }
    ensures { (result ≡ station_of times.now center_freq rec_ecef) × Within 0 result.epoch.secs result.epoch.nanos }
{
    let epoch = epoch_of(times);
    Station {
        epoch,
        center_freq,
        rec_ecef,
    }
}

// ---- the search

// The first pass's centre, 0 where there is none.
fn first_center(centers: &[f64]) -> f64
    ensures { result ≡ get_or centers.now 0 (bits 0) }
{
    match centers.first() {
        Some(&center) => center,
        None => 0.0,
    }
}

fn fixed(times: &[i64], centers: &[f64], rec_ecef: Vec3, a: f64, i: f64) -> Fixed
    requires { Timed times.now }
    ensures { (result ≡ fixed_of times.now centers.now rec_ecef a i) × Within 0 result.station.epoch.secs result.station.epoch.nanos }
{
    let station = station(times, first_center(centers), rec_ecef);
    Fixed { station, a, i }
}

// The best of all 144 starts on a pass set. The table, of 48,032 places or more, is worked in.
pub fn search_starts(
    counts: &[u32],
    times: &[i64],
    freqs: &[f64],
    centers: &[f64],
    rec_ecef: Vec3,
    a: f64,
    i: f64,
    table: &mut [f64],
) -> Result<Found, Refusal>
    ensures { Searches (probe_refusal counts.now times.now freqs.now (length centers.now) (length table.old) 48032)
        (starts.search_of (sums.fixed_sum counts.now times.now freqs.now centers.now (fixed_of times.now centers.now rec_ecef a i)) 0 144)
        table.old table.new result }
{
    accept(counts, times, freqs, centers.len(), table.len(), ROTATIONS)?;
    let set = PassSet {
        counts,
        times,
        freqs,
        centers,
    };
    approach::turns::fill(&set, table);
    let passes = approach::turns::Prepared {
        set,
        table: Some(&*table),
    };
    let fixed = fixed(times, centers, rec_ecef, a, i);
    let found = search::search(&Problem { passes, fixed }, 0, 144);
    linear::clear(table);
    Ok(found)
}

// ---- residuals

// What the predictions share. The samples' moments as counts and the rotations then are worked out in the rooms that are lent.
fn observations<'a>(
    station: Station,
    counts: &'a [u32],
    times: &[i64],
    freqs: &'a [f64],
    moments: &'a mut [u64],
    turns: &'a mut [f64],
) -> Observations<'a>
    requires { Observable counts.now times.now (length freqs.now) (length moments.old) (length turns.old) × Within 0 station.epoch.secs station.epoch.nanos }
    ensures { (result.station ≡ station) × (passes_in result ≡ samples_of counts.now times.now freqs.now) }
{
    residuals::counts_at(times, moments);
    let counted = &moments[..times.len()];
    residuals::rotations(counted, turns);
    Observations {
        station,
        counts,
        times: counted,
        freqs,
        turns,
    }
}

// The penalised sum of a set of parameters; its residuals go to the first places of out, which has 4,144 or more. They are kept apart
// until all are there, since refusal 23 writes none.
pub fn residuals_of<const SECOND: bool>(
    x: &Given,
    params: [f64; PARAMS],
    out: &mut [f64],
) -> Result<f64, Refusal>
    ensures { Sums (probe_refusal x.now.counts.now x.now.times.now x.now.freqs.now (length x.now.counts.now) (length out.old) 4144)
        (residuals SECOND (station_of x.now.times.now x.now.center_freq x.now.rec_ecef)
        (samples_of x.now.counts.now x.now.times.now x.now.freqs.now) params)
        out.old out.new result }
{
    let passes = x.counts.len();
    accept(x.counts, x.times, x.freqs, passes, out.len(), ROWS)?;
    let mut moments = [0u64; MAX_SAMPLES];
    let mut turns = [0.0; TURNS];
    let station = station(x.times, x.center_freq, x.rec_ecef);
    let obs = observations(
        station,
        x.counts,
        x.times,
        x.freqs,
        &mut moments,
        &mut turns,
    );
    let mut r = [0.0; ROWS];
    let sum = residuals::penalised_sum(&Point::<SECOND> { params }, &obs, &mut r)?;
    trials::put(&r[..obs.rows::<SECOND>()], out);
    Ok(sum)
}

// ---- a trial

// One trial and what follows it.
fn turned<const SECOND: bool>(obs: &Observations, s: State, scratch: &mut [f64]) -> State
    requires { 281792 ≤ length scratch.old }
    ensures { state_after result ≡ trial_of SECOND obs.now.station (passes_in obs.now) (state_search s) }
{
    let enough = residuals::place_of::<SECOND>(obs.counts.len()) <= obs.rows::<SECOND>();
    let mut r = [0.0; ROWS];
    let t = trials::trial::<SECOND>(obs, s, &mut r);
    let after = t.state;
    let Ending::Running = after.ended else {
        return after;
    };
    trials::follow::<SECOND>(obs, enough, t, &mut r, scratch).state
}

// One trial and what follows it, from any state; a moment that is too far is refusal 23. Scratch, of 281,792 places or more, is
// worked in.
pub fn trial<const SECOND: bool>(x: &Given, s: State, scratch: &mut [f64]) -> Result<State, Refusal>
    ensures { TrialCall (probe_refusal x.now.counts.now x.now.times.now x.now.freqs.now (length x.now.counts.now) (length scratch.old) 281792)
        (trial_of SECOND (station_of x.now.times.now x.now.center_freq x.now.rec_ecef)
        (samples_of x.now.counts.now x.now.times.now x.now.freqs.now) (state_search s))
        scratch.old scratch.new result }
{
    let passes = x.counts.len();
    accept(x.counts, x.times, x.freqs, passes, scratch.len(), TABLE)?;
    let mut moments = [0u64; MAX_SAMPLES];
    let mut turns = [0.0; TURNS];
    let station = station(x.times, x.center_freq, x.rec_ecef);
    let obs = observations(
        station,
        x.counts,
        x.times,
        x.freqs,
        &mut moments,
        &mut turns,
    );
    let after = turned::<SECOND>(&obs, s, scratch);
    linear::clear(scratch);
    match trials::far_refusal(after.ended) {
        Some(far) => Err(far),
        None => Ok(after),
    }
}
