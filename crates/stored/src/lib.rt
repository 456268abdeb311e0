// A pass set as stored bytes: u32 pass count, one u32 sample count per pass, all times (i64 nanoseconds since 1970), all frequencies
// (f64 bits), little-endian, nothing after.
#![tactic(auto)]

mod arrays;
pub mod number;

ghost use Rattle.std.specs.Prelude.{◌≡◌, IfSome};
ghost use Rattle.stored.specs.Sets as Sets;

use pass_set::MAX_PASSES;
use refusal::Refusal;

// How many samples a set has at most.
const MOST_SAMPLES: usize = 4096;

// What a set that was loaded has.
#[derive(Clone, Copy)]
pub struct Loaded {
    pub passes: usize,
    pub samples: usize,
}

// The sizes that the bytes give, where the bytes are as many as they take.
fn sizes_in(b: &[u8]) -> Option<Loaded>
    ensures value { result ≡ Sets.sizes_in b.now }
    ensures room { IfSome result (λ s. Sets.Room b.now s.passes s.samples) }
{
    if b.len() < 4 {
        return None;
    }
    let passes = number::word_at(b, 0) as usize;
    if MAX_PASSES < passes || b.len() < 4 + 4 * passes {
        return None;
    }
    let (counts, _) = b[4..4 + 4 * passes].as_chunks::<4>();
    let samples = arrays::total_of(counts);
    if MOST_SAMPLES < samples || b.len() != 4 + 4 * passes + 16 * samples {
        return None;
    }
    Some(Loaded { passes, samples })
}

// The set that the bytes hold, into the first places of the arrays.
// Refused: the sizes; a time outside 1957 to 2056; an array that is too short.
pub fn load(
    b: &[u8],
    counts: &mut [u32],
    times: &mut [i64],
    freqs: &mut [f64],
) -> Result<Loaded, Refusal>
    ensures { Sets.Loads b.now counts.old counts.new times.old times.new freqs.old freqs.new result }
{
    let Some(set) = sizes_in(b) else {
        return Err(Refusal::Sizes);
    };
    let times_at = 4 + 4 * set.passes;
    let freqs_at = times_at + 8 * set.samples;
    let (count_bytes, _) = b[4..times_at].as_chunks::<4>();
    let (time_bytes, _) = b[times_at..freqs_at].as_chunks::<8>();
    let (freq_bytes, _) = b[freqs_at..].as_chunks::<8>();
    if !arrays::in_range(time_bytes) {
        return Err(Refusal::MomentRange);
    }
    if counts.len() < set.passes || times.len() < set.samples || freqs.len() < set.samples {
        return Err(Refusal::ShortMemory);
    }
    arrays::load(count_bytes, &mut counts[..set.passes]);
    arrays::load(time_bytes, &mut times[..set.samples]);
    arrays::load(freq_bytes, &mut freqs[..set.samples]);
    Ok(set)
}

// The set's bytes, into the first places of out, and how many they are.
// Refused: a time outside 1957 to 2056; the sizes; an output that is too short.
pub fn store(counts: &[u32], times: &[i64], freqs: &[f64], out: &mut [u8]) -> Result<usize, Refusal>
    ensures { Sets.Stores counts.now times.now freqs.now out.old out.new result }
{
    if !moment::sample::all_in_range(times) {
        return Err(Refusal::MomentRange);
    }
    if !pass_set::sizes_agree(counts, times.len(), freqs.len(), counts.len()) {
        return Err(Refusal::Sizes);
    }
    let times_at = 4 + 4 * counts.len();
    let freqs_at = times_at + 8 * times.len();
    let size = freqs_at + 8 * freqs.len();
    if out.len() < size {
        return Err(Refusal::ShortMemory);
    }
    out[..4].copy_from_slice(&(counts.len() as u32).to_le_bytes());
    arrays::store(counts, &mut out[4..times_at]);
    arrays::store(times, &mut out[times_at..freqs_at]);
    arrays::store(freqs, &mut out[freqs_at..size]);
    Ok(size)
}
