// The fit of a circular orbit to Doppler passes. `fit_orbit_doppler` takes any input; the other functions ask what it has checked,
// and it meets that by proof.
#![tactic(auto)]

ghost use Rattle.std.specs.Prelude.{◌≡◌, ◌||◌, ◌++◌, ◌+◌, ◌*◌, ◌≤◌, ◌<◌, length, drop};
ghost use Rattle.std.specs.Float.Ieee.{lt};
ghost use Rattle.refusal.specs.Refusals.{first_of, answer};
ghost use Rattle.float.specs.Ops.{abs_of};
ghost use Rattle.moment.specs.Sample.{Timed};
ghost use Rattle.trials.specs.Trials.{state_search, RunsTo};
ghost use Rattle.fit.specs.Fit.{start_elements, refined, refined_two, first_book};
ghost use Rattle.fit.specs.Answer.{arguments, largest_offset, biases, any_large, search_refusals, orbit_of, outputs, Fits};
ghost use Rattle.fit.specs.Work.{observed_in, Refines, RoomForTwo, Roomy, Ends, WorkDone, OutputsRoom, Puts};

use approach::turns::Prepared;
use arguments::{MAX_TRIALS, Room};
use frame::Vec3;
use orbit::Elements;
use orbit::doppler::Station;
use pass_set::{MAX_PASSES, MAX_SAMPLES, PassSet};
use refusal::Refusal;
use residuals::PARAMS;
use residuals::observations::Observations;
use search::problem::Problem;
use solution::SolvedOrbit;
use start::Recording;
use trials::{State, Trials};

// What a fit finds: the orbit, how many trials the second refinement made, and the best of their sums.
#[derive(Clone, Copy)]
pub struct Fit {
    pub orbit: SolvedOrbit,
    pub trials: usize,
    pub best: f64,
}

// ---- from the first guess to the second refinement

// The best start of two passes, for the semi-major axis a. The scratch holds the table of rotations meanwhile.
fn start_elements(a: f64, x: &Recording, i: f64, scratch: &mut [f64]) -> Elements
    requires { RoomForTwo x.now (length scratch.old) }
    ensures { result ≡ start_elements a i (observed_in x.now) }
{
    approach::turns::fill(&x.set, scratch);
    let passes = Prepared {
        set: x.set,
        table: Some(&*scratch),
    };
    let fixed = search::Fixed {
        station: x.station,
        a,
        i,
    };
    let best = search::search(&Problem { passes, fixed }, 0, 144);
    Elements {
        a,
        i,
        raan0: best.raan0,
        u0: best.u0,
    }
}

// A refinement of these passes from the elements e, of at most `most` trials.
fn refine_passes<const SECOND: bool>(
    x: &Recording,
    enough: bool,
    most: usize,
    e: Elements,
    log: &mut [f64],
    scratch: &mut [f64],
) -> Trials
    requires { Refines SECOND most x.now (length log.old) (length scratch.old) }
    ensures { RunsTo (refined SECOND enough most e (observed_in x.now)) log.old log.new result }
{
    let mut moments = [0u64; MAX_SAMPLES];
    let mut turns = [0.0; 8192];
    let n = x.set.times.len();
    residuals::counts_at(x.set.times, &mut moments);
    residuals::rotations(&moments[..n], &mut turns);
    let obs = Observations {
        station: x.station,
        counts: x.set.counts,
        times: &moments[..n],
        freqs: x.set.freqs,
        turns: &turns,
    };
    let start = x.starting_set::<SECOND>(e);
    trials::refine_trials::<SECOND>(&obs, enough, most, start, log, scratch)
}

// Search and first refinement of two passes, for the semi-major axis a.
fn refine_two(a: f64, x: &Recording, i: f64, scratch: &mut [f64]) -> State
    requires { RoomForTwo x.now (length scratch.old) }
    ensures { Ends (refined_two a i (observed_in x.now)) result }
{
    let e = start_elements(a, x, i, scratch);
    let rows = residuals::rows_of::<false>(x.set.times.len(), x.set.counts.len());
    let mut log = [0.0; 100];
    refine_passes::<false>(x, 8 <= rows, 100, e, &mut log, scratch).state
}

// Search and first refinement, on the first two passes.
fn refine_first(a: f64, x: &Recording, i: f64, scratch: &mut [f64]) -> State
    requires { Roomy x.now (length scratch.old) }
    ensures { Ends (first_book a i (observed_in x.now)) result }
{
    let n = x.set.counts[0] as usize + x.set.counts[1] as usize;
    let set = PassSet {
        counts: &x.set.counts[..2],
        times: &x.set.times[..n],
        freqs: &x.set.freqs[..n],
        centers: &x.set.centers[..2],
    };
    let two = Recording {
        set,
        station: x.station,
    };
    refine_two(a, &two, i, scratch)
}

// Whether it was so already, or this df0 is too large.
fn or_large(large: bool, df: f64) -> bool
    ensures { result ≡ (large || lt largest_offset (abs_of df)) }
{
    if large {
        return true;
    }
    float::abs(df) > 500e3
}

// Whether a pass's df0 is too large.
fn any_large(x: [f64; PARAMS], passes: usize) -> bool
    requires { passes ≤ 16 }
    ensures { result ≡ any_large (biases 1 x passes) }
{
    let mut large = false;
    for p in 0..passes {
        let df = x[4 + 4 * p + 1];
        large = or_large(large, df);
    }
    large
}

// Refused: 23, 24 and 25, by where a second refinement ended.
fn accept_state(s: State, passes: usize) -> Result<(), Refusal>
    requires { passes ≤ 16 }
    ensures { result ≡ answer (first_of (search_refusals s.ended (state_search s) passes)) tt }
{
    if let Some(far) = trials::far_refusal(s.ended) {
        return Err(far);
    }
    if s.best > 1e11 {
        return Err(Refusal::LargeSum);
    }
    if any_large(s.best_params, passes) {
        return Err(Refusal::LargeOffset);
    }
    Ok(())
}

// Both refinements. The second's sums go to the log. Refused: 23 from either, 24 and 25.
fn refine_both(
    a: f64,
    x: &Recording,
    i: f64,
    log: &mut [f64],
    scratch: &mut [f64],
) -> Result<Trials, Refusal>
    requires { Roomy x.now (length scratch.old) × (150 ≤ length log.old) }
    ensures { WorkDone (observed_in x.now) a i log.old log.new result }
{
    let s = refine_first(a, x, i, scratch);
    if let Some(far) = trials::far_refusal(s.ended) {
        return Err(far);
    }
    let e = residuals::elements_of(s.best_params);
    let trials = refine_passes::<true>(x, true, MAX_TRIALS, e, log, scratch);
    accept_state(trials.state, x.set.counts.len())?;
    Ok(trials)
}

// ---- the answer

// The orbit of a set, at the first sample's moment.
fn orbit_of(x: [f64; PARAMS], times: &[i64]) -> SolvedOrbit
    requires { Timed times.now × (0 < length times.now) }
    ensures { result ≡ orbit_of x times.now }
{
    let epoch = moment::sample::to_moment(times[0]);
    SolvedOrbit {
        a: x[0],
        i: x[1],
        raan0: x[2],
        u0: x[3],
        epoch,
    }
}

// Writes bias k of each pass to the first places of out.
fn put_biases(k: usize, x: [f64; PARAMS], passes: usize, out: &mut [f64])
    requires { (k ≤ 3) × (passes ≤ 16) × (passes ≤ length out.old) }
    ensures { out.new ≡ biases k x passes ++ drop passes out.old }
{
    for p in 0..passes {
        out[p] = x[4 + 4 * p + k];
    }
}

// The answer of the second refinement's trials, whose logged sums are `sums`.
fn put_answer(
    t: Trials,
    passes: usize,
    times: &[i64],
    sums: &[f64],
    dts: &mut [f64],
    dfs: &mut [f64],
    df1s: &mut [f64],
    df2s: &mut [f64],
    log: &mut [f64],
) -> Fit
    requires { OutputsRoom t.count passes times.now sums.now (outputs dts.old dfs.old df1s.old df2s.old log.old) }
    ensures { Puts t passes times.now sums.now
        (outputs dts.old dfs.old df1s.old df2s.old log.old)
        (outputs dts.new dfs.new df1s.new df2s.new log.new) result }
{
    let x = t.state.best_params;
    let n = t.count;
    put_biases(0, x, passes, dts);
    put_biases(1, x, passes, dfs);
    put_biases(2, x, passes, df1s);
    put_biases(3, x, passes, df2s);
    trials::put(&sums[..n], log);
    Fit {
        orbit: orbit_of(x, times),
        trials: n,
        best: t.state.best,
    }
}

// Fits one circular orbit to the passes of one satellite. The biases of the non-empty passes go to the first places of `dts`, `dfs`,
// `df1s` and `df2s`, the sums of the trials to those of `log`. `initial_a` is checked and, as in the reference, never used.
pub fn fit_orbit_doppler(
    counts: &[u32],
    times: &[i64],
    freqs: &[f64],
    centers: &[f64],
    rec_ecef: Vec3,
    initial_a: f64,
    initial_i: f64,
    dts: &mut [f64],
    dfs: &mut [f64],
    df1s: &mut [f64],
    df2s: &mut [f64],
    log: &mut [f64],
    scratch: &mut [f64],
) -> Result<Fit, Refusal>
    ensures { Fits (arguments counts.now times.now freqs.now centers.now rec_ecef initial_a initial_i)
        (outputs dts.old dfs.old df1s.old df2s.old log.old)
        (outputs dts.new dfs.new df1s.new df2s.new log.new) scratch.old scratch.new result }
{
    arguments::accept_input(
        counts, times, freqs, centers, rec_ecef, initial_a, initial_i,
    )?;
    let kept = arguments::non_empty(counts);
    let passes = kept.passes;
    let room = Room {
        dts: dts.len(),
        dfs: dfs.len(),
        df1s: df1s.len(),
        df2s: df2s.len(),
        log: log.len(),
        scratch: scratch.len(),
    };
    arguments::accept_room(times.len(), passes, room)?;
    let center_freq = arguments::first_center(counts, centers);
    let station = Station {
        epoch: approach::pca::moment_at(times, 0),
        center_freq,
        rec_ecef,
    };
    let same_centers = [center_freq; MAX_PASSES];
    let set = PassSet {
        counts: &kept.counts[..passes],
        times,
        freqs,
        centers: &same_centers[..passes],
    };
    let x = Recording { set, station };
    let a_est = x.radius_estimate();
    let mut sums = [0.0; MAX_TRIALS];
    let done = refine_both(a_est, &x, initial_i, &mut sums, scratch);
    linear::clear(scratch);
    let t = done?;
    Ok(put_answer(t, passes, times, &sums, dts, dfs, df1s, df2s, log))
}
