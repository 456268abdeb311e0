// What an accepted fit's report says.
ghost use Rattle.append.specs.Append.{Puts};
ghost use Rattle.report_text.specs.Fitted.{counts_of, sums_of, fit_text, clock_of, offset_of, drift_text, pass_line, finding_of, ratio_line, noise_of};

use super::number;
use append::Text;
use noise::Finding;

fn counts(trials: usize, samples: usize, passes: usize, text: &mut Text<'_>)
    ensures { Puts (counts_of trials samples passes) text.old text.new }
{
    text.put(b"trials: ");
    text.put_number(trials as u64);
    text.put(b"\nsamples: ");
    text.put_number(samples as u64);
    text.put(b" in ");
    text.put_number(passes as u64);
    text.put(b" files\n");
}

fn sums(best: f64, rms: f64, text: &mut Text<'_>)
    ensures { Puts (sums_of best rms) text.old text.new }
{
    text.put(b"best sum, with penalties: ");
    number::real(best, text);
    text.put(b" Hz^2\nroot-mean-square residual of the samples: ");
    number::real(rms, text);
    text.put(b" Hz\n");
}

// The whole fit.
pub fn fit(trials: usize, best: f64, rms: f64, samples: usize, passes: usize, text: &mut Text<'_>)
    ensures { Puts (fit_text trials best rms samples passes) text.old text.new }
{
    counts(trials, samples, passes, text);
    sums(best, rms, text);
}

// The orbit passes a sample's place dt seconds after the moment that the recording gives it: so a positive dt is a slow clock.
fn clock(dt: f64, text: &mut Text<'_>)
    ensures { Puts (clock_of dt) text.old text.new }
{
    text.put(b"its clock is ");
    number::real(float::abs(dt), text);
    if dt < 0.0 {
        text.put(b" s fast (take it from the times)");
    } else {
        text.put(b" s slow (add it to the times)");
    }
}

// A positive df is what the recorded frequencies have too much.
fn offset(df: f64, text: &mut Text<'_>)
    ensures { Puts (offset_of df) text.old text.new }
{
    text.put(b", its frequencies are ");
    number::real(float::abs(df), text);
    if df < 0.0 {
        text.put(b" Hz low (add it to them)");
    } else {
        text.put(b" Hz high (take it from them)");
    }
}

fn drift(df1: f64, df2: f64, text: &mut Text<'_>)
    ensures { Puts (drift_text df1 df2) text.old text.new }
{
    text.put(b", rising by ");
    number::real(df1 * 1000.0, text);
    text.put(b" mHz/s and ");
    number::real(df2 * 1000000.0, text);
    text.put(b" uHz/s^2\n");
}

// The biases of a file's pass, as what is to be corrected.
pub fn pass(name: &[u8], dt: f64, df: f64, df1: f64, df2: f64, text: &mut Text<'_>)
    ensures { Puts (pass_line name.now dt df df1 df2) text.old text.new }
{
    text.put(name);
    text.put(b": ");
    clock(dt, text);
    offset(df, text);
    drift(df1, df2, text);
}

fn doubtful(ratio: f64, text: &mut Text<'_>)
    ensures { Puts (ratio_line ratio) text.old text.new }
{
    text.put(b"doubtful: the residual is ");
    number::real(ratio, text);
    text.put(b" times the noise of the samples\n");
}

fn finding(f: Finding, ratio: f64, text: &mut Text<'_>)
    ensures { Puts (finding_of f ratio) text.old text.new }
{
    match f {
        Finding::AtNoise => text.put(b"the residual is at the noise of the samples\n"),
        Finding::Doubtful => doubtful(ratio, text),
        Finding::TwoPasses => text.put(b"two passes: the residual cannot tell a wrong orbit\n"),
        Finding::Untold => text.put(b"the samples do not tell their noise\n"),
    }
}

// The noise of the samples, how many times it the residual is, and what that says.
pub fn noise(estimate: f64, ratio: f64, f: Finding, text: &mut Text<'_>)
    ensures { Puts (noise_of estimate ratio f) text.old text.new }
{
    text.put(b"noise of the samples by themselves: ");
    number::real(estimate, text);
    text.put(b" Hz\nresidual over noise: ");
    number::real(ratio, text);
    text.put(b"\n");
    finding(f, ratio, text);
}
