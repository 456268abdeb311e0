// The calls of this crate for other languages: `oracle/` links them. A slice passes as its start and length, a refusal comes back as its
// number, 0 if none, and leaves what the arguments point to as it was; memory that is worked in is zeros after 23, too.
#![tactic(auto)]

ghost use Rattle.std.specs.Prelude.{◌≡◌, length};
ghost use Rattle.frame.specs.Rotation.{place};
ghost use Rattle.search.specs.Sum.{fixed_sum};
ghost use Rattle.search.specs.Search.{search_of};
ghost use Rattle.residuals.specs.Residuals.{residuals};
ghost use Rattle.residuals.specs.Samples.{station_of};
ghost use Rattle.probes.specs.Call.{probe_refusal, fixed_of, samples_of, trial_of};
ghost use Rattle.probes_c.specs.Exported.{SearchesTo, SumsTo, search_at, ending_number, TriesTo};

use book::Ending;
use frame::Vec3;
use probes::Given;
use trials::State;

// raan0, u0 and their sum. The table has 48,032 places or more.
#[unsafe(no_mangle)]
pub extern "C" fn wisvalom_search_starts(
    counts: &[u32],
    times: &[i64],
    freqs: &[f64],
    centers: &[f64],
    x: f64,
    y: f64,
    z: f64,
    a: f64,
    i: f64,
    table: &mut [f64],
    out: &mut [f64; 3],
) -> u32
    ensures { SearchesTo (probe_refusal counts.now times.now freqs.now (length centers.now) (length table.old) 48032)
        (search_of (fixed_sum counts.now times.now freqs.now centers.now (fixed_of times.now centers.now (place x y z) a i)) 0 144)
        table.old table.new out.old out.new result }
{
    let p = Vec3 { x, y, z };
    match probes::search_starts(counts, times, freqs, centers, p, a, i, table) {
        Ok(found) => {
            *out = [found.raan0, found.u0, found.rss];
            0
        }
        Err(r) => r.number(),
    }
}

// A set of parameters has 68 places, of which a refinement reads its first; out has 4,144 or more.
#[unsafe(no_mangle)]
pub extern "C" fn wisvalom_residuals(
    second: bool,
    counts: &[u32],
    times: &[i64],
    freqs: &[f64],
    center_freq: f64,
    x: f64,
    y: f64,
    z: f64,
    params: &[f64; 68],
    out: &mut [f64],
    sum: &mut f64,
) -> u32
    ensures { SumsTo (probe_refusal counts.now times.now freqs.now (length counts.now) (length out.old) 4144)
        (residuals second (station_of times.now center_freq (place x y z)) (samples_of counts.now times.now freqs.now) params.now)
        out.old out.new sum.old sum.new result }
{
    let given = Given {
        counts,
        times,
        freqs,
        center_freq,
        rec_ecef: Vec3 { x, y, z },
    };
    let answer = if second {
        probes::residuals_of::<true>(&given, *params, out)
    } else {
        probes::residuals_of::<false>(&given, *params, out)
    };
    refusal::report(answer, sum)
}

fn ending_number(e: Ending) -> u32
    ensures { result ≡ ending_number e }
{
    match e {
        Ending::Running => 0,
        Ending::Short => 2,
        Ending::Damped => 3,
        Ending::Refused(_) => 4,
        Ending::Converged => 5,
    }
}

// From the state in the first four to the one after a trial, with why it ended. Scratch has 281,792 places or more.
#[unsafe(no_mangle)]
pub extern "C" fn wisvalom_trial<'a>(
    second: bool,
    counts: &'a [u32],
    times: &'a [i64],
    freqs: &'a [f64],
    center_freq: f64,
    x: f64,
    y: f64,
    z: f64,
    params: &mut [f64; 68],
    best_params: &mut [f64; 68],
    damping: &mut f64,
    best: &mut f64,
    ended: &mut u32,
    scratch: &mut [f64],
) -> u32
    ensures { TriesTo (probe_refusal counts.now times.now freqs.now (length counts.now) (length scratch.old) 281792)
        (trial_of second (station_of times.now center_freq (place x y z)) (samples_of counts.now times.now freqs.now)
        (search_at params.old best_params.old damping.old best.old))
        scratch.old scratch.new
        (search_at params.old best_params.old damping.old best.old)
        (search_at params.new best_params.new damping.new best.new) ended.old ended.new result }
{
    let given = Given {
        counts,
        times,
        freqs,
        center_freq,
        rec_ecef: Vec3 { x, y, z },
    };
    let s = State {
        params: *params,
        best_params: *best_params,
        damping: *damping,
        best: *best,
        ended: Ending::Running,
    };
    let answer = if second {
        probes::trial::<true>(&given, s, scratch)
    } else {
        probes::trial::<false>(&given, s, scratch)
    };
    match answer {
        Ok(after) => {
            let next = after.params;
            let kept = after.best_params;
            *params = next;
            *best_params = kept;
            *damping = after.damping;
            *best = after.best;
            *ended = ending_number(after.ended);
            0
        }
        Err(r) => r.number(),
    }
}
