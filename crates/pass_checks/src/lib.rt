// What the command tells of a gathered pass set: a pass that is there twice, a frequency that is not a number, and a file of another
// satellite's name. `twin` asks for a pass that is there; the command meets that by proof.
#![tactic(auto)]

ghost use Rattle.std.specs.Prelude.{◌≡◌, ◌<◌, length};
ghost use Rattle.pass_set.specs.PassSet.{pass_of};
ghost use Rattle.arguments.specs.Refusals.{any_nan};
ghost use Rattle.pass_checks.specs.Checks.{alike, nan_pass, twin_of, other_name, Whole};

use ordering::pass_of;
use passes::file;

// Whether a frequency of pass p is NaN.
fn nan_in(counts: &[u32], freqs: &[f64], p: usize) -> bool
    requires { Whole counts.now (length freqs.now) × (p < length counts.now) }
    ensures { result ≡ any_nan (pass_of counts.now p freqs.now) }
{
    arguments::any_nan(pass_of(counts, freqs, p))
}

// The first pass with a frequency that is NaN.
pub fn nan_pass(counts: &[u32], freqs: &[f64]) -> Option<usize>
    requires { Whole counts.now (length freqs.now) }
    ensures { result ≡ nan_pass counts.now freqs.now }
{
    (0..counts.len()).find(|p| nan_in(counts, freqs, *p))
}

// The samples of a gathered set, pass after pass: times in nanoseconds since 1970, frequencies in Hz. A moment may be out of range, and a
// frequency no number.
#[derive(Clone, Copy)]
pub struct Samples<'a> {
    pub counts: &'a [u32],
    pub times: &'a [i64],
    pub freqs: &'a [f64],
    ghost sizes: { Whole counts.now (length times.now) × Whole counts.now (length freqs.now) },
}

impl Samples<'_> {
    // Whether pass p has samples and pass q the same ones.
    fn is_alike(&self, p: usize, q: usize) -> bool
        requires { (p < length self.now.counts.now) × (q < length self.now.counts.now) }
        ensures { result ≡ alike self.now.counts.now self.now.times.now self.now.freqs.now p q }
    {
        self.counts[p] != 0
            && pass_of(self.counts, self.times, p) == pass_of(self.counts, self.times, q)
            && pass_of(self.counts, self.freqs, p) == pass_of(self.counts, self.freqs, q)
    }

    // The first pass before q with the same samples.
    pub fn twin(&self, q: usize) -> Option<usize>
        requires { q < length self.now.counts.now }
        ensures { result ≡ twin_of self.now.counts.now self.now.times.now self.now.freqs.now q }
    {
        (0..q).find(|p| self.is_alike(*p, q))
    }
}

// Whether the file is one that is accepted, and has a name, and another than this.
pub fn is_other_name(name: &[u8], file: &[u8]) -> bool
    ensures { result ≡ other_name name.now file.now }
{
    let mut times = [0i64; 4096];
    let mut freqs = [0.0f64; 4096];
    let Ok(r) = file::read_pass_file(file, &mut times, &mut freqs) else {
        return false;
    };
    match r.name {
        Some(part) => name != file::name_at(file, part),
        None => false,
    }
}
