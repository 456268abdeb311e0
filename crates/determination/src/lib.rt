// Fit and element lines in one call, from arrays and from stored bytes. Both calls take any input.
#![tactic(auto)]

ghost use Rattle.std.specs.Prelude.{◌≡◌, ◌&&◌, leb, eqb, length};
ghost use Rattle.stored.specs.Sets.{passes_in};
ghost use Rattle.fit.specs.Answer.{arguments, outputs};
ghost use Rattle.refusal.specs.Refusals.{left_by};
ghost use Rattle.determination.specs.Calls.{Determines, DeterminesStored};

use fit::Fit;
use frame::Vec3;
use pass_set::{MAX_PASSES, MAX_SAMPLES};
use refusal::Refusal;

// An accepted fit, and the answer of its lines: their number of bytes.
#[derive(Clone, Copy)]
pub struct Determination {
    pub fit: Fit,
    pub lines: Result<usize, Refusal>,
}

impl Determination {
    // How many bytes of the text were written.
    pub fn bytes_written(self) -> usize
        ensures { result ≡ left_by 0 self.lines }
    {
        self.lines.unwrap_or(0)
    }
}

// Fits an orbit to the passes, as `fit_orbit_doppler` does, and writes its element lines under this name to the first bytes of
// `text`. Lines that are refused leave an accepted fit as it is; the refusal is that of the fit, which then has none.
pub fn fit_and_format(
    counts: &[u32],
    times: &[i64],
    freqs: &[f64],
    centers: &[f64],
    rec_ecef: Vec3,
    initial_a: f64,
    initial_i: f64,
    dts: &mut [f64],
    dfs: &mut [f64],
    df1s: &mut [f64],
    df2s: &mut [f64],
    log: &mut [f64],
    scratch: &mut [f64],
    name: &[u8],
    text: &mut [u8],
) -> Result<Determination, Refusal>
    ensures { Determines (arguments counts.now times.now freqs.now centers.now rec_ecef initial_a initial_i)
        (outputs dts.old dfs.old df1s.old df2s.old log.old)
        (outputs dts.new dfs.new df1s.new df2s.new log.new) scratch.old scratch.new
        name.now text.old text.new result }
{
    let fit = fit::fit_orbit_doppler(
        counts, times, freqs, centers, rec_ecef, initial_a, initial_i, dts, dfs, df1s, df2s, log,
        scratch,
    )?;
    let lines = tle::format_tle_catalog(name, fit.orbit, text);
    Ok(Determination { fit, lines })
}

// Whether the bytes begin with this number of passes.
fn begins_with(bytes: &[u8], passes: usize) -> bool
    ensures { result ≡ (leb 4 (length bytes.now) && eqb (passes_in bytes.now) passes) }
{
    4 <= bytes.len() && stored::number::word_at(bytes, 0) as usize == passes
}

// The same on the pass set that stored bytes hold. Their 5 and that of centres that are not one per pass come before their 4, and
// all three before the fit's own refusals.
pub fn fit_and_format_stored(
    bytes: &[u8],
    centers: &[f64],
    rec_ecef: Vec3,
    initial_a: f64,
    initial_i: f64,
    dts: &mut [f64],
    dfs: &mut [f64],
    df1s: &mut [f64],
    df2s: &mut [f64],
    log: &mut [f64],
    scratch: &mut [f64],
    name: &[u8],
    text: &mut [u8],
) -> Result<Determination, Refusal>
    ensures { DeterminesStored bytes.now centers.now rec_ecef initial_a initial_i
        (outputs dts.old dfs.old df1s.old df2s.old log.old)
        (outputs dts.new dfs.new df1s.new df2s.new log.new) scratch.old scratch.new
        name.now text.old text.new result }
{
    if !begins_with(bytes, centers.len()) {
        return Err(Refusal::Sizes);
    }
    let mut counts = [0u32; MAX_PASSES];
    let mut times = [0i64; MAX_SAMPLES];
    let mut freqs = [0.0; MAX_SAMPLES];
    let set = stored::load(bytes, &mut counts, &mut times, &mut freqs)?;
    fit_and_format(
        &counts[..set.passes],
        &times[..set.samples],
        &freqs[..set.samples],
        centers,
        rec_ecef,
        initial_a,
        initial_i,
        dts,
        dfs,
        df1s,
        df2s,
        log,
        scratch,
        name,
        text,
    )
}
