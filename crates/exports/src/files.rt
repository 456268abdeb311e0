// The pass file.
ghost use Rattle.std.specs.Prelude.{◌≡◌};
ghost use Rattle.exports.specs.Files.{numbers_in, FileGiven};

use passes::file::PassFile;

// Count, the name's start and end in the file, and 1; three zeros behind the count where no name was seen.
fn numbers_in(r: PassFile) -> [usize; 4]
    ensures { result ≡ numbers_in r }
{
    match r.name {
        Some(part) => [r.count, part.start, part.end, 1],
        None => [r.count, 0, 0, 0],
    }
}

// `numbers` takes the count of samples, the name's start and end in the file, and 1 if a name was seen, else 0.
#[unsafe(no_mangle)]
pub extern "C" fn wisvalom_read_pass_file(
    file: &[u8],
    times: &mut [i64],
    freqs: &mut [f64],
    numbers: &mut [usize; 4],
    center_freq: &mut f64,
) -> u32
    ensures { FileGiven file.now times.old times.new freqs.old freqs.new numbers.old numbers.new center_freq.old center_freq.new result }
{
    match passes::file::read_pass_file(file, times, freqs) {
        Ok(r) => {
            *numbers = numbers_in(r);
            *center_freq = r.center_freq;
            0
        }
        Err(refusal) => refusal.number(),
    }
}
