// A pass set in flat arrays: `counts` has the number of samples of each pass, `times` and `freqs` one element per sample,
// pass after pass, and `centers` one centre frequency per pass, empty ones too. A loop over passes keeps the place k where
// the next pass begins and asks the set for the pass; specs/PassSet.antt says which part of the arrays that is.
#![tactic(auto)]

ghost use Rattle.std.specs.Prelude.{◌≡◌, ◌≤◌, ◌<◌, length};
ghost use Rattle.pass_set.specs.PassSet.{total, count_of, pass_of, sizes_agree, AtPass, SoundSet, PassSamples};

pub const MAX_PASSES: usize = 16;

pub const MAX_SAMPLES: usize = 4096;

// The four slices of a pass set that passed refusals 4 and 5: times in nanoseconds since 1970, frequencies and centres in Hz.
#[derive(Clone, Copy)]
pub struct PassSet<'a> {
    pub counts: &'a [u32],
    pub times: &'a [i64],
    pub freqs: &'a [f64],
    pub centers: &'a [f64],
    ghost sound: { SoundSet counts.now times.now freqs.now centers.now },
}

// The samples of one pass.
#[derive(Clone, Copy)]
pub struct Pass<'a> {
    pub times: &'a [i64],
    pub freqs: &'a [f64],
    ghost paired: { PassSamples times.now freqs.now },
}

impl<'a> PassSet<'a> {
    // Pass p, whose samples begin at k.
    pub fn pass(&self, p: usize, k: usize) -> Pass<'a>
        requires { AtPass self.now.counts.now p k × (p < length self.now.counts.now) }
        ensures times { result.times.now ≡ pass_of self.now.counts.now p self.now.times.now }
        ensures freqs { result.freqs.now ≡ pass_of self.now.counts.now p self.now.freqs.now }
    {
        let end = k + self.counts[p] as usize;
        Pass {
            times: &self.times[k..end],
            freqs: &self.freqs[k..end],
        }
    }
}

// How many samples the counts make.
#[tactic(auto, using(crate::proofs::Laws::total_sum))]
fn total_of(counts: &[u32]) -> usize
    requires { length counts.now ≤ 16 }
    ensures { result ≡ total counts.now }
{
    counts.iter().map(|n| *n as usize).sum()
}

// False is refusal 5.
#[tactic(auto, unfolding(crate::specs::PassSet::sizes_agree))]
pub fn sizes_agree(counts: &[u32], times: usize, freqs: usize, centers: usize) -> bool
    ensures { result ≡ sizes_agree counts.now times freqs centers }
{
    counts.len() <= MAX_PASSES
        && centers == counts.len()
        && times <= MAX_SAMPLES
        && freqs == times
        && total_of(counts) == times
}
