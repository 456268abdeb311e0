// Stored pass sets, from bytes and to bytes.
ghost use Rattle.exports.specs.Sets.{LoadsTo, StoresTo};

#[unsafe(no_mangle)]
pub extern "C" fn wisvalom_load(
    b: &[u8],
    counts: &mut [u32],
    times: &mut [i64],
    freqs: &mut [f64],
    passes: &mut usize,
    samples: &mut usize,
) -> u32
    ensures { LoadsTo b.now counts.old counts.new times.old times.new freqs.old freqs.new
        passes.new samples.new result }
{
    match stored::load(b, counts, times, freqs) {
        Ok(set) => {
            *passes = set.passes;
            *samples = set.samples;
            0
        }
        Err(refusal) => {
            *passes = 0;
            *samples = 0;
            refusal.number()
        }
    }
}

#[unsafe(no_mangle)]
pub extern "C" fn wisvalom_store(
    counts: &[u32],
    times: &[i64],
    freqs: &[f64],
    out: &mut [u8],
    size: &mut usize,
) -> u32
    ensures { StoresTo counts.now times.now freqs.now out.old out.new size.new result }
{
    match stored::store(counts, times, freqs, out) {
        Ok(stored) => {
            *size = stored;
            0
        }
        Err(refusal) => {
            *size = 0;
            refusal.number()
        }
    }
}
