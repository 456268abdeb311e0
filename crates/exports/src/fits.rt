// The fit. Its orbit, count and best sum go to places of their own: zeros after a refusal.
ghost use Rattle.std.specs.Prelude.{◌≡◌};
ghost use Rattle.frame.specs.Rotation.{place};
ghost use Rattle.fit.specs.Answer.{arguments, outputs};
ghost use Rattle.refusal.specs.Refusals.{status_of, left_by};
ghost use Rattle.exports.specs.Elements.{orbit};
ghost use Rattle.exports.specs.Fits.{fitted, no_fit, FitsTo};

use fit::Fit;
use frame::Vec3;
use moment::Moment;
use refusal::Refusal;
use solution::SolvedOrbit;

// What stands in the places after a refusal.
const NO_FIT: Fit = Fit {
    orbit: SolvedOrbit {
        a: 0.0,
        i: 0.0,
        raan0: 0.0,
        u0: 0.0,
        epoch: Moment {
            seconds: 0,
            nanos: 0,
        },
    },
    trials: 0,
    best: 0.0,
};

// Puts an answer's numbers to places of their own, and gives its refusal.
pub fn put(
    answer: Result<Fit, Refusal>,
    a: &mut f64,
    i: &mut f64,
    raan0: &mut f64,
    u0: &mut f64,
    epoch: &mut i64,
    epoch_nanos: &mut u32,
    trials: &mut usize,
    best: &mut f64,
) -> u32
    ensures status { result ≡ status_of answer }
    ensures put { fitted (orbit a.new i.new raan0.new u0.new epoch.new epoch_nanos.new)
        trials.new best.new ≡ left_by no_fit answer }
{
    let mut fit = NO_FIT;
    let status = refusal::report(answer, &mut fit);
    let solved = fit.orbit;
    *a = solved.a;
    *i = solved.i;
    *raan0 = solved.raan0;
    *u0 = solved.u0;
    let seconds = solved.epoch.seconds;
    *epoch = seconds;
    *epoch_nanos = solved.epoch.nanos;
    *trials = fit.trials;
    *best = fit.best;
    status
}

#[unsafe(no_mangle)]
pub extern "C" fn wisvalom_fit_orbit_doppler(
    counts: &[u32],
    times: &[i64],
    freqs: &[f64],
    centers: &[f64],
    x: f64,
    y: f64,
    z: f64,
    initial_a: f64,
    initial_i: f64,
    dts: &mut [f64],
    dfs: &mut [f64],
    df1s: &mut [f64],
    df2s: &mut [f64],
    log: &mut [f64],
    scratch: &mut [f64],
    a: &mut f64,
    i: &mut f64,
    raan0: &mut f64,
    u0: &mut f64,
    epoch: &mut i64,
    epoch_nanos: &mut u32,
    trials: &mut usize,
    best: &mut f64,
) -> u32
    ensures { FitsTo (arguments counts.now times.now freqs.now centers.now (place x y z) initial_a initial_i)
        (outputs dts.old dfs.old df1s.old df2s.old log.old)
        (outputs dts.new dfs.new df1s.new df2s.new log.new) scratch.old scratch.new
        (orbit a.new i.new raan0.new u0.new epoch.new epoch_nanos.new) trials.new best.new result }
{
    let answer = fit::fit_orbit_doppler(
        counts,
        times,
        freqs,
        centers,
        Vec3 { x, y, z },
        initial_a,
        initial_i,
        dts,
        dfs,
        df1s,
        df2s,
        log,
        scratch,
    );
    put(answer, a, i, raan0, u0, epoch, epoch_nanos, trials, best)
}
