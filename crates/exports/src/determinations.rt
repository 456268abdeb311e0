// A fit and its element lines in one call. The fit's orbit, count and best sum, the lines' refusal and their number of bytes go to
// places of their own: after a refusal of the fit zeros, with its number for the lines.
ghost use Rattle.std.specs.Prelude.{◌≡◌};
ghost use Rattle.frame.specs.Rotation.{place};
ghost use Rattle.fit.specs.Answer.{arguments, outputs};
ghost use Rattle.exports.specs.Determinations.{Told, DeterminesTo, DeterminesStoredTo};
ghost use Rattle.exports.specs.Elements.{orbit};
ghost use Rattle.exports.specs.Fits.{fitted};

use super::fits;
use determination::Determination;
use frame::Vec3;
use refusal::Refusal;

// Puts an answer's numbers to places of their own, and gives the fit's refusal.
fn put(
    answer: Result<Determination, Refusal>,
    a: &mut f64,
    i: &mut f64,
    raan0: &mut f64,
    u0: &mut f64,
    epoch: &mut i64,
    epoch_nanos: &mut u32,
    trials: &mut usize,
    best: &mut f64,
    lines: &mut u32,
    length: &mut usize,
) -> u32
    ensures { Told answer (fitted (orbit a.new i.new raan0.new u0.new epoch.new epoch_nanos.new) trials.new best.new)
        lines.new length.new result }
{
    *length = 0;
    *lines = match answer {
        Ok(d) => refusal::report(d.lines, length),
        Err(refusal) => refusal.number(),
    };
    fits::put(
        answer.map(|d| d.fit),
        a,
        i,
        raan0,
        u0,
        epoch,
        epoch_nanos,
        trials,
        best,
    )
}

#[unsafe(no_mangle)]
pub extern "C" fn wisvalom_fit_and_format(
    counts: &[u32],
    times: &[i64],
    freqs: &[f64],
    centers: &[f64],
    x: f64,
    y: f64,
    z: f64,
    initial_a: f64,
    initial_i: f64,
    dts: &mut [f64],
    dfs: &mut [f64],
    df1s: &mut [f64],
    df2s: &mut [f64],
    log: &mut [f64],
    scratch: &mut [f64],
    name: &[u8],
    text: &mut [u8],
    a: &mut f64,
    i: &mut f64,
    raan0: &mut f64,
    u0: &mut f64,
    epoch: &mut i64,
    epoch_nanos: &mut u32,
    trials: &mut usize,
    best: &mut f64,
    lines: &mut u32,
    length: &mut usize,
) -> u32
    ensures { DeterminesTo (arguments counts.now times.now freqs.now centers.now (place x y z) initial_a initial_i)
        (outputs dts.old dfs.old df1s.old df2s.old log.old)
        (outputs dts.new dfs.new df1s.new df2s.new log.new) scratch.old scratch.new
        name.now text.old text.new
        (fitted (orbit a.new i.new raan0.new u0.new epoch.new epoch_nanos.new) trials.new best.new)
        lines.new length.new result }
{
    let answer = determination::fit_and_format(
        counts,
        times,
        freqs,
        centers,
        Vec3 { x, y, z },
        initial_a,
        initial_i,
        dts,
        dfs,
        df1s,
        df2s,
        log,
        scratch,
        name,
        text,
    );
    put(
        answer,
        a,
        i,
        raan0,
        u0,
        epoch,
        epoch_nanos,
        trials,
        best,
        lines,
        length,
    )
}

// The same on the pass set that stored bytes hold.
#[unsafe(no_mangle)]
pub extern "C" fn wisvalom_fit_and_format_stored(
    bytes: &[u8],
    centers: &[f64],
    x: f64,
    y: f64,
    z: f64,
    initial_a: f64,
    initial_i: f64,
    dts: &mut [f64],
    dfs: &mut [f64],
    df1s: &mut [f64],
    df2s: &mut [f64],
    log: &mut [f64],
    scratch: &mut [f64],
    name: &[u8],
    text: &mut [u8],
    a: &mut f64,
    i: &mut f64,
    raan0: &mut f64,
    u0: &mut f64,
    epoch: &mut i64,
    epoch_nanos: &mut u32,
    trials: &mut usize,
    best: &mut f64,
    lines: &mut u32,
    length: &mut usize,
) -> u32
    ensures { DeterminesStoredTo bytes.now centers.now (place x y z) initial_a initial_i
        (outputs dts.old dfs.old df1s.old df2s.old log.old)
        (outputs dts.new dfs.new df1s.new df2s.new log.new) scratch.old scratch.new
        name.now text.old text.new
        (fitted (orbit a.new i.new raan0.new u0.new epoch.new epoch_nanos.new) trials.new best.new)
        lines.new length.new result }
{
    let answer = determination::fit_and_format_stored(
        bytes,
        centers,
        Vec3 { x, y, z },
        initial_a,
        initial_i,
        dts,
        dfs,
        df1s,
        df2s,
        log,
        scratch,
        name,
        text,
    );
    put(
        answer,
        a,
        i,
        raan0,
        u0,
        epoch,
        epoch_nanos,
        trials,
        best,
        lines,
        length,
    )
}
