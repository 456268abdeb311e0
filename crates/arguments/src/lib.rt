// What a fit is given: its refusals before it works, and its non-empty passes. `non_empty`, `first_center`, `scratch_size` and
// `accept_room` ask for sizes that passed refusal 5; the fit meets that by proof.
#![tactic(auto)]

ghost use Rattle.std.specs.Prelude.{◌≡◌, ◌+◌, ◌*◌, ◌≤◌, length};
ghost use Rattle.refusal.specs.Refusals.{answer};
ghost use Rattle.arguments.specs.Passes.{center_of, Compacts};
ghost use Rattle.arguments.specs.Refusals.{nan_argument, out_of_range, any_nan, scratch_size, enough, room_refusal_of, input_refusal_of};

use frame::Vec3;
use pass_set::MAX_PASSES;
use refusal::Refusal;

// How many sums the log has room for.
pub const MAX_TRIALS: usize = 150;

// How many non-empty passes a fit needs.
const LEAST_PASSES: usize = 2;

// The counts of the non-empty passes in the first places, and how many they are.
#[derive(Clone, Copy)]
pub struct NonEmpty {
    pub counts: [u32; MAX_PASSES],
    pub passes: usize,
}

pub fn non_empty(counts: &[u32]) -> NonEmpty
    requires { length counts.now ≤ 16 }
    ensures { Compacts counts.now result }
{
    let mut out = [0u32; MAX_PASSES];
    let mut n = 0usize;
    for &count in counts {
        if count != 0 {
            out[n] = count;
            n += 1;
        }
    }
    NonEmpty {
        counts: out,
        passes: n,
    }
}

// The first non-empty pass's centre frequency.
pub fn first_center(counts: &[u32], centers: &[f64]) -> f64
    requires { length centers.now ≡ length counts.now }
    ensures { result ≡ center_of counts.now centers.now }
{
    for (p, &count) in counts.iter().enumerate() {
        if count != 0 {
            return centers[p];
        }
    }
    0.0
}

#[tactic(auto, unfolding(crate::specs::Refusals::nan_argument))]
fn nan_argument(rec: Vec3, a: f64, i: f64) -> bool
    ensures { result ≡ nan_argument rec a i }
{
    rec.x.is_nan() || rec.y.is_nan() || rec.z.is_nan() || a.is_nan() || i.is_nan()
}

#[tactic(auto, unfolding(crate::specs::Refusals::out_of_range))]
fn out_of_range(a: f64, i: f64) -> bool
    ensures { result ≡ out_of_range a i }
{
    a < 6000e3 || a > 50000e3 || i < 0.0 || i > float::PI
}

pub fn any_nan(freqs: &[f64]) -> bool
    ensures { result ≡ any_nan freqs.now }
{
    freqs.iter().any(|f| f.is_nan())
}

// The scratch that so many samples in so many non-empty passes need.
pub fn scratch_size(samples: usize, passes: usize) -> usize
    requires { (samples ≤ 4096) × (passes ≤ 16) }
    ensures { result ≡ scratch_size samples passes }
{
    (samples + 3 * passes) * (5 + 4 * passes) + 20000
}

// The lengths of the memory that a fit is lent: for the four biases of each pass, the sums of the trials, and its work.
#[derive(Clone, Copy)]
pub struct Room {
    pub dts: usize,
    pub dfs: usize,
    pub df1s: usize,
    pub df2s: usize,
    pub log: usize,
    pub scratch: usize,
}

// Whether it is long enough.
#[tactic(auto, unfolding(crate::specs::Refusals::enough))]
fn enough(samples: usize, passes: usize, room: Room) -> bool
    requires { (samples ≤ 4096) × (passes ≤ 16) }
    ensures { result ≡ enough samples passes room }
{
    passes <= room.dts
        && passes <= room.dfs
        && passes <= room.df1s
        && passes <= room.df2s
        && MAX_TRIALS <= room.log
        && scratch_size(samples, passes) <= room.scratch
}

// Refused: 21, the lent outputs, the log or the scratch are too short.
pub fn accept_room(samples: usize, passes: usize, room: Room) -> Result<(), Refusal>
    requires { (samples ≤ 4096) × (passes ≤ 16) }
    ensures { result ≡ answer (room_refusal_of samples passes room) tt }
{
    if !enough(samples, passes, room) {
        return Err(Refusal::ShortMemory);
    }
    Ok(())
}

// Refused: the first of 5, 4, 6, 7, 8, 9 and 10 that is due.
pub fn accept_input(
    counts: &[u32],
    times: &[i64],
    freqs: &[f64],
    centers: &[f64],
    rec_ecef: Vec3,
    initial_a: f64,
    initial_i: f64,
) -> Result<(), Refusal>
    ensures { result ≡ answer (input_refusal_of counts.now times.now freqs.now centers.now rec_ecef initial_a initial_i) tt }
{
    if !pass_set::sizes_agree(counts, times.len(), freqs.len(), centers.len()) {
        return Err(Refusal::Sizes);
    }
    if !moment::sample::all_in_range(times) {
        return Err(Refusal::MomentRange);
    }
    if nan_argument(rec_ecef, initial_a, initial_i) {
        return Err(Refusal::NanArgument);
    }
    if out_of_range(initial_a, initial_i) {
        return Err(Refusal::InitialRange);
    }
    if any_nan(freqs) {
        return Err(Refusal::NanFrequency);
    }
    let passes = non_empty(counts).passes;
    if passes < LEAST_PASSES {
        return Err(Refusal::FewPasses);
    }
    if times.len() < 4 + passes {
        return Err(Refusal::FewSamples);
    }
    Ok(())
}
