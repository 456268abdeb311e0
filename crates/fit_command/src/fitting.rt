// The fit, and what comes of it.
ghost use Rattle.std.specs.Prelude.{length};
ghost use Rattle.pass_set.specs.PassSet.{Sizes};

use crate::Command;
use command::report;
use command::report::Biases;
use command_words::{Layout, Mast};
use determination::Determination;
use fit::Fit;
use frame::Vec3;
use pass_checks::Samples;
use refusal::Refusal;
use solution::SolvedOrbit;
use std::env::Env;
use std::io;
use std::io::Stderr;

// Which of orbit and name cannot be printed: an orbit that can be under another name is not at fault.
fn unprintable(stderr: Stderr, orbit: SolvedOrbit) {
    let mut text = [0u8; 256];
    match tle::format_tle_catalog(b"HERD-1", orbit, &mut text) {
        Ok(_) => messages::name_unprintable(stderr),
        Err(_) => messages::orbit_unprintable(stderr),
    }
}

fn lines_refused(stderr: Stderr, refusal: Refusal, orbit: SolvedOrbit) {
    match refusal {
        Refusal::Unprintable => unprintable(stderr, orbit),
        _ => messages::refusal(stderr, refusal),
    }
}

// What is off in recorded frequencies is off the other way in mirrored ones.
fn turned(received: bool, b: Biases) -> Biases {
    if !received {
        return b;
    }
    Biases {
        df: -b.df,
        df1: -b.df1,
        df2: -b.df2,
        ..b
    }
}

// The word of file i, the first being word `first`.
fn word_of(i: usize, first: usize) -> usize {
    if 16 < i || 6 < first {
        return 0;
    }
    i + first
}

// The set that was fitted, the numbers that its passes had, and the biases that the fit gave its non-empty passes.
#[derive(Clone, Copy)]
struct Fitted<'a> {
    order: &'a [usize],
    counts: &'a [u32],
    times: &'a [i64],
    freqs: &'a [f64],
    centers: &'a [f64],
    dts: &'a [f64],
    dfs: &'a [f64],
    df1s: &'a [f64],
    df2s: &'a [f64],
}

impl<'a> Fitted<'a> {
    // The residual of this orbit, in Hz.
    fn rms(&self, rec_ecef: Vec3, orbit: SolvedOrbit) -> f64 {
        report::rms(
            self.counts,
            self.times,
            self.freqs,
            self.centers,
            rec_ecef,
            orbit,
            self.dts,
            self.dfs,
            self.df1s,
            self.df2s,
        )
    }

    // With over 16 passes nothing is told; the fit takes no more.
    fn tell_noise(&self, stderr: Stderr, rms: f64) {
        if 16 < self.counts.len() {
            return;
        }
        let full = arguments::non_empty(self.counts);
        let estimate = noise::estimate(self.counts, self.times, self.freqs);
        messages::noise(stderr, rms, estimate, full.passes);
    }

    // The biases of each file, by time.
    fn tell_biases(&self, rt: &impl Env, stderr: Stderr, layout: Layout) {
        for (p, file) in self.order.iter().enumerate() {
            let b = report::biases_of(self.counts, p, self.dts, self.dfs, self.df1s, self.df2s);
            let word = word_of(*file, layout.first);
            messages::pass(rt, stderr, word, turned(layout.received, b));
        }
    }

    // The report of an accepted fit.
    fn report(&self, rt: &impl Env, stderr: Stderr, layout: Layout, rec_ecef: Vec3, fit: Fit) {
        let rms = self.rms(rec_ecef, fit.orbit);
        let samples = self.times.len();
        let passes = self.counts.len();
        messages::fit(stderr, fit.trials, fit.best, rms, samples, passes);
        self.tell_noise(stderr, rms);
        self.tell_biases(rt, stderr, layout);
    }
}

impl<'a, R: Env> Command<'a, R> {
    // Why there is no fit; `nan` is the first file with a frequency that is not a number, or, where only mirroring makes one, the number of
    // files, whose word has no name.
    fn fit_refused(&self, layout: Layout, refusal: Refusal, nan: usize) {
        match refusal {
            Refusal::NanFrequency => {
                messages::file_refusal(self.rt, self.stderr, word_of(nan, layout.first), refusal);
            }
            _ => messages::refusal(self.stderr, refusal),
        }
    }

    // The report, or why an accepted fit has no lines.
    fn tell(&self, layout: Layout, rec_ecef: Vec3, d: Determination, fitted: &Fitted<'_>) {
        match d.lines {
            Ok(_) => fitted.report(self.rt, self.stderr, layout, rec_ecef, d.fit),
            Err(refusal) => lines_refused(self.stderr, refusal, d.fit.orbit),
        }
    }

    // Fits the set, writes what `outcome` says to standard output, and tells of it; fails where it cannot be written.
    fn fit(
        &self,
        layout: Layout,
        mast: Mast,
        nan: usize,
        counts: &[u32],
        times: &[i64],
        freqs: &mut [f64],
        centers: &[f64],
        name: &[u8],
    ) -> io::Result<()>
        requires { Sizes counts.now (length times.now) (length freqs.old) (length centers.now) }
    {
        let p = counts.len();
        let s = times.len();
        let mut order = [0usize; 16];
        let mut counts_out = [0u32; 16];
        let mut times_out = [0i64; 4096];
        let mut freqs_out = [0.0f64; 4096];
        let mut centers_out = [0.0f64; 16];
        let mut dts = [0.0f64; 16];
        let mut dfs = [0.0f64; 16];
        let mut df1s = [0.0f64; 16];
        let mut df2s = [0.0f64; 16];
        let mut log = [0.0f64; 150];
        // What 16 passes and 4,096 samples need: (4096 + 3 * 16) * (5 + 4 * 16) + 20000.
        let mut scratch = [0.0f64; 305936];
        let mut text = [0u8; 256];
        let answer = outcome::outcome(
            layout.received,
            counts,
            times,
            freqs,
            centers,
            mast.rec_ecef,
            mast.initial_i,
            &mut order[..p],
            &mut counts_out[..p],
            &mut times_out[..s],
            &mut freqs_out[..s],
            &mut centers_out[..p],
            &mut dts,
            &mut dfs,
            &mut df1s,
            &mut df2s,
            &mut log,
            &mut scratch,
            name,
            &mut text,
        );
        match answer {
            Ok(d) => {
                let written = self.stdout.write_all(&text[..d.bytes_written()]);
                let fitted = Fitted {
                    order: &order[..p],
                    counts: &counts_out[..p],
                    times: &times_out[..s],
                    freqs: &freqs_out[..s],
                    centers: &centers_out[..p],
                    dts: &dts,
                    dfs: &dfs,
                    df1s: &df1s,
                    df2s: &df2s,
                };
                self.tell(layout, mast.rec_ecef, d, &fitted);
                written
            }
            Err(refusal) => {
                self.fit_refused(layout, refusal, nan);
                Ok(())
            }
        }
    }

    // Each file with the samples of one before it.
    fn tell_twins(&self, first: usize, set: Samples<'_>) {
        for q in 0..set.counts.len() {
            if let Some(p) = set.twin(q) {
                messages::twice(self.rt, self.stderr, word_of(q, first), word_of(p, first));
            }
        }
    }

    // Tells what is odd in the set, and fits it. Callers meet the `requires`, here and of `fit`, by proof.
    pub(crate) fn check_and_fit(
        &self,
        layout: Layout,
        mast: Mast,
        counts: &[u32],
        times: &[i64],
        freqs: &mut [f64],
        centers: &[f64],
        name: &[u8],
    ) -> io::Result<()>
        requires { Sizes counts.now (length times.now) (length freqs.old) (length centers.now) }
    {
        let set = Samples {
            counts,
            times,
            freqs,
        };
        self.tell_twins(layout.first, set);
        let nan = pass_checks::nan_pass(counts, freqs).unwrap_or(counts.len());
        self.fit(layout, mast, nan, counts, times, freqs, centers, name)
    }
}
