// The trials of a refinement, as the trial book of crate `book` has them. `SECOND` says which refinement. The state is one
// record by value: `trial` compares the next set's sum with the best, `follow` does what follows. The functions ask what the fit
// has checked, and it meets that by proof. `enough` says whether the residuals are enough for a step.
#![tactic(auto)]

ghost use Rattle.std.specs.Prelude.{◌≡◌, ◌++◌, ◌+◌, ◌*◌, ◌≤◌, length, take, drop};
ghost use Rattle.residuals.specs.Residuals.{rows_of, residuals, penalised_sum};
ghost use Rattle.residuals.specs.Answers.{passes_in, Filled};
ghost use Rattle.refine.specs.Advance.{advance_of, cells_of};
ghost use Rattle.normal.specs.Step.{next};
ghost use Rattle.normal.specs.Answers.{outcome};
ghost use Rattle.book.specs.Book.{far_of, open_book, judged, arrival, onward, book};
ghost use Rattle.trials.specs.Trials.{state_search, state_after, Tries, HeldResiduals, Arrives, Follows, Runs};

use book::Ending;
use normal::Step;
use refusal::Refusal;
use residuals::observations::Observations;
use residuals::{PARAMS, Point, ROWS};

// The set to try next, the best sum with its set, the damping, and whether the refinement has ended.
#[derive(Clone, Copy)]
pub struct State {
    pub params: [f64; PARAMS],
    pub best_params: [f64; PARAMS],
    pub damping: f64,
    pub best: f64,
    pub ended: Ending,
}

// What a trial leaves: the sum or its refusal, whether the sum was below the best, and the state after it.
#[derive(Clone, Copy)]
pub struct Tried {
    pub sum: Result<f64, Refusal>,
    pub kept: bool,
    pub state: State,
}

// What follows a trial: where the step led, and the state after it.
#[derive(Clone, Copy)]
pub struct Followed {
    pub step: Step,
    pub state: State,
}

// How many trials were made, and the state they ended in.
#[derive(Clone, Copy)]
pub struct Trials {
    pub count: usize,
    pub state: State,
}

fn open(start: [f64; PARAMS]) -> State
    ensures { state_after result ≡ record { search = (open_book start).search; ended = (open_book start).ended } }
{
    State {
        params: start,
        best_params: start,
        damping: 1.0,
        best: float::MAX,
        ended: Ending::Running,
    }
}

// A sum below the best is kept with its set and the damping falls; else the best set is restored and the damping rises.
fn judge(s: State, sum: f64) -> State
    ensures { state_after result ≡ judged sum (state_search s) }
{
    if sum < s.best {
        let tried = s.params;
        return State {
            best_params: tried,
            damping: s.damping / 10.0,
            best: sum,
            ended: Ending::Running,
            ..s
        };
    }
    let x = s.best_params;
    let damping = s.damping * 10.0;
    let ended = if damping > 1e12 {
        Ending::Damped
    } else {
        Ending::Running
    };
    State {
        params: x,
        damping,
        ended,
        ..s
    }
}

// One trial: the sum of the state's next set, compared with the best. The set's residuals are left in the first places of r.
pub fn trial<const SECOND: bool>(obs: &Observations, s: State, r: &mut [f64]) -> Tried
    requires { length obs.now.times.now + 3 * length obs.now.counts.now ≤ length r.old }
    ensures { Tries SECOND obs.now.station (passes_in obs.now) (state_search s) r.new result }
{
    let params = s.params;
    let set = Point::<SECOND> { params };
    let sum = residuals::penalised_sum(&set, obs, r);
    match sum {
        Ok(v) => {
            let state = judge(s, v);
            let kept = v < s.best;
            Tried { sum, kept, state }
        }
        Err(far) => {
            let state = State {
                ended: Ending::Refused(far),
                ..s
            };
            let kept = false;
            Tried { sum, kept, state }
        }
    }
}

// The state with the next set `params`, ended where the step to it was small.
fn reach(s: State, params: [f64; PARAMS], size: f64) -> State
    ensures { state_after result ≡ arrival (state_search s) (next params size) }
{
    let ended = if size < 1e-8 {
        Ending::Converged
    } else {
        Ending::Running
    };
    State { params, ended, ..s }
}

// Where a step leads: to the set `params`, which ends the refinement where the step was small, or to its end.
fn arrive(s: State, params: [f64; PARAMS], step: Step) -> Followed
    ensures { Arrives (state_search s) (outcome step params) result }
{
    let state = match step {
        Step::Next(size) => reach(s, params, size),
        Step::Short => State {
            ended: Ending::Short,
            ..s
        },
        Step::Refused(r) => State {
            ended: Ending::Refused(r),
            ..s
        },
    };
    Followed { step, state }
}

// The residuals of the set p go to the first places of r, where they lie already if they are known; or refusal 23.
fn at_hand<const SECOND: bool>(
    p: &Point<SECOND>,
    known: bool,
    obs: &Observations,
    r: &mut [f64],
) -> Result<(), Refusal>
    requires { HeldResiduals SECOND known obs.now.station (passes_in obs.now) p.now.params r.old }
    ensures { Filled result (take (rows_of SECOND (length obs.now.times.now) (length obs.now.counts.now)) r.new)
        (residuals SECOND obs.now.station (passes_in obs.now) p.now.params) }
{
    if known {
        return Ok(());
    }
    residuals::residuals_into(p, obs, r)
}

// What follows a trial, in the reference's order: the residuals of the set at hand, which are known where the trial kept it and worked
// out again where the best one was restored; whether they are enough; table and step. The table lies in the first places of
// scratch.
pub fn follow<const SECOND: bool>(
    obs: &Observations,
    enough: bool,
    t: Tried,
    r: &mut [f64],
    scratch: &mut [f64],
) -> Followed
    requires { (cells_of SECOND (passes_in obs.now) ≤ length scratch.old)
        × HeldResiduals SECOND t.kept obs.now.station (passes_in obs.now) t.state.params r.old }
    ensures { Follows SECOND enough obs.now.station (passes_in obs.now) (state_search t.state)
        r.new scratch.old scratch.new result }
{
    let s = t.state;
    let params = s.params;
    let p = Point::<SECOND> { params };
    if let Err(far) = at_hand(&p, t.kept, obs, r) {
        return arrive(s, params, Step::Refused(far));
    }
    if !enough {
        return arrive(s, params, Step::Short);
    }
    let rows = obs.rows::<SECOND>();
    let moved = refine::advance(&p, obs, s.damping, &r[..rows], scratch);
    arrive(s, moved.params, moved.step)
}

// A refinement from the set `start`: at most `most` trials, each sum written to the log.
pub fn refine_trials<const SECOND: bool>(
    obs: &Observations,
    enough: bool,
    most: usize,
    start: [f64; PARAMS],
    log: &mut [f64],
    scratch: &mut [f64],
) -> Trials
    requires { (cells_of SECOND (passes_in obs.now) ≤ length scratch.old) × (most ≤ length log.old) × (most ≤ 150) }
    ensures { Runs (book (penalised_sum SECOND obs.now.station (passes_in obs.now))
        (advance_of SECOND obs.now.station (passes_in obs.now)) enough start most) log.old log.new
        (cells_of SECOND (passes_in obs.now)) scratch.old scratch.new result }
{
    let mut s = open(start);
    let mut n = 0usize;
    while n < most {
        let mut r = [0.0; ROWS];
        let t = trial::<SECOND>(obs, s, &mut r);
        let after = t.state;
        s = after;
        let Ok(sum) = t.sum else {
            break;
        };
        log[n] = sum;
        n += 1;
        let Ending::Running = after.ended else {
            break;
        };
        let f = follow::<SECOND>(obs, enough, t, &mut r, scratch);
        s = f.state;
        let Step::Next(size) = f.step else {
            break;
        };
        if size < 1e-8 {
            break;
        }
    }
    Trials { count: n, state: s }
}

// The refusal that a refinement's ending gives the fit: 23 is carried on, while the solver's 22 ended the refinement and no more.
pub fn far_refusal(e: Ending) -> Option<Refusal>
    ensures { result ≡ far_of e }
{
    match e {
        Ending::Running => None,
        Ending::Refused(refusal) => {
            if refusal == Refusal::FarMoment {
                Some(refusal)
            } else {
                None
            }
        }
        Ending::Short => None,
        Ending::Damped => None,
        Ending::Converged => None,
    }
}

// Writes the numbers to the first places of out: a log or residuals that were kept apart until no refusal could come.
pub fn put(from: &[f64], out: &mut [f64])
    requires { length from.now ≤ length out.old }
    ensures { out.new ≡ from.now ++ drop (length from.now) out.old }
{
    out[..from.len()].copy_from_slice(from);
}
