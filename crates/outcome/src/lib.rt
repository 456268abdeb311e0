// From a pass set to the bytes of standard output. It serves the command, which lends arrays of the right lengths.
#![tactic(auto)]

ghost use Rattle.std.specs.Prelude.{◌≡◌, cond, length};
ghost use Rattle.pass_set.specs.PassSet.{Sizes};
ghost use Rattle.received.specs.Mirror.{mirrored_all};
ghost use Rattle.ordering.specs.Order.{pass_set, Alike};
ghost use Rattle.fit.specs.Answer.{outputs};
ghost use Rattle.outcome.specs.Output.{Comes};

use determination::Determination;
use frame::Vec3;
use refusal::Refusal;

// The fit checks a first guess of the semi-major axis and never uses it, so the command does not ask for one.
const INITIAL_A: f64 = 7000e3;

fn hear(as_received: bool, counts: &[u32], centers: &[f64], freqs: &mut [f64])
    requires { Sizes counts.now (length freqs.old) (length freqs.old) (length centers.now) }
    ensures { freqs.new ≡ cond as_received (mirrored_all counts.now centers.now freqs.old) freqs.old }
{
    if as_received {
        received::mirror(counts, centers, freqs);
    }
}

// Fits the passes, by time, and puts what goes to standard output into `text`: its first bytes, as many as the lines' length. The set
// that was fitted comes back in the arrays `_out`, and in `order` the numbers that its passes had; `freqs` are mirrored in place.
pub fn outcome(
    as_received: bool,
    counts: &[u32],
    times: &[i64],
    freqs: &mut [f64],
    centers: &[f64],
    rec_ecef: Vec3,
    initial_i: f64,
    order: &mut [usize],
    counts_out: &mut [u32],
    times_out: &mut [i64],
    freqs_out: &mut [f64],
    centers_out: &mut [f64],
    dts: &mut [f64],
    dfs: &mut [f64],
    df1s: &mut [f64],
    df2s: &mut [f64],
    log: &mut [f64],
    scratch: &mut [f64],
    name: &[u8],
    text: &mut [u8],
) -> Result<Determination, Refusal>
    requires { Sizes counts.now (length times.now) (length freqs.old) (length centers.now)
        × Alike (length counts.now) (length order.old) (length counts_out.old) (length centers_out.old) (length counts.now)
        × Alike (length times.now) (length times.now) (length times.now) (length times_out.old) (length freqs_out.old) }
    ensures { Comes as_received (pass_set counts.now times.now freqs.old centers.now)
        (pass_set counts_out.new times_out.new freqs_out.new centers_out.new) freqs.new order.new rec_ecef initial_i
        (outputs dts.old dfs.old df1s.old df2s.old log.old)
        (outputs dts.new dfs.new df1s.new df2s.new log.new) scratch.old scratch.new
        name.now text.old text.new result }
{
    hear(as_received, counts, centers, freqs);
    ordering::arrange::in_time(
        counts,
        times,
        freqs,
        centers,
        order,
        counts_out,
        times_out,
        freqs_out,
        centers_out,
    );
    determination::fit_and_format(
        counts_out,
        times_out,
        freqs_out,
        centers_out,
        rec_ecef,
        INITIAL_A,
        initial_i,
        dts,
        dfs,
        df1s,
        df2s,
        log,
        scratch,
        name,
        text,
    )
}
