// Pass files gathered into one pass set, a pass for each file, and the satellite's name from the first file in time that has one.
ghost use Rattle.std.specs.Prelude.{◌≡◌, ◌≤◌, length, take};
ghost use Rattle.command.specs.Gather.{arrays, roomless, First, Adds, no_later, Keeps, Opens, Extends};

use passes::file;
use passes::file::PassFile;
use refusal::Refusal;

// How many bytes the name to print has, and where its file belongs in the order of time: none is UNKNOWN, of no file.
#[derive(Clone, Copy)]
pub struct Name {
    pub size: usize,
    pub key: Option<u64>,
}

// The set so far, which stands in the first places of the arrays.
#[derive(Clone, Copy)]
pub struct Gathered {
    pub passes: usize,
    pub samples: usize,
    pub name: Name,
}

// That a file's samples find no room is 5 here: they would be more than a set has.
fn roomless(refusal: Refusal) -> Refusal
    ensures { result ≡ roomless refusal }
{
    match refusal {
        Refusal::ShortMemory => Refusal::Sizes,
        _ => refusal,
    }
}

// Reads one file more: its samples go behind the s samples that are there, its count and centre behind those of p passes. 5 says
// that one of the arrays is full; the command lends room for 16 passes and 4,096 samples.
fn add_file(
    file: &[u8],
    p: usize,
    s: usize,
    counts: &mut [u32],
    times: &mut [i64],
    freqs: &mut [f64],
    centers: &mut [f64],
) -> Result<PassFile, Refusal>
    ensures { Adds file.now p s counts.old counts.new times.old times.new freqs.old freqs.new centers.old centers.new result }
{
    if counts.len() <= p || centers.len() <= p || times.len() < s || freqs.len() < s {
        return Err(Refusal::Sizes);
    }
    match file::read_pass_file(file, &mut times[s..], &mut freqs[s..]) {
        Ok(r) => {
            counts[p] = r.count as u32;
            centers[p] = r.center_freq;
            Ok(r)
        }
        Err(refusal) => Err(roomless(refusal)),
    }
}

// As many of the bytes as find room, in the first places of out, and how many these are.
fn put(from: &[u8], out: &mut [u8]) -> usize
    ensures { First result out.new (take (length out.old) from.now) }
{
    let n = out.len().min(from.len());
    out[..n].copy_from_slice(&from[..n]);
    n
}

// Whether a name is of a file that is not later.
fn stays(kept: Option<u64>, key: u64) -> bool
    ensures { result ≡ no_later kept key }
{
    match kept {
        Some(k) => k <= key,
        None => false,
    }
}

// After a file: its name, if it has one and none of a file that is not later was seen.
fn keep_name(name: Name, file: &[u8], r: PassFile, key: u64, out: &mut [u8]) -> Name
    ensures { Keeps name file.now r key out.old out.new result }
{
    let Some(part) = r.name else {
        return name;
    };
    if stays(name.key, key) {
        return name;
    }
    let size = put(file::name_at(file, part), out);
    Name {
        size,
        key: Some(key),
    }
}

// Before the first file: no pass, and UNKNOWN. The command lends 256 bytes for the name, and no line of a file has more.
pub fn no_files(name: &mut [u8]) -> Gathered
    ensures { Opens name.new result }
{
    let size = put(b"UNKNOWN", name);
    Gathered {
        passes: 0,
        samples: 0,
        name: Name { size, key: None },
    }
}

// Adds a file to the set: all of it, or nothing where it is refused.
pub fn add(
    file: &[u8],
    g: Gathered,
    counts: &mut [u32],
    times: &mut [i64],
    freqs: &mut [f64],
    centers: &mut [f64],
    name: &mut [u8],
) -> Result<Gathered, Refusal>
    ensures { Extends file.now g (arrays counts.old times.old freqs.old centers.old name.old)
        (arrays counts.new times.new freqs.new centers.new name.new) result }
{
    let s = g.samples;
    let r = add_file(file, g.passes, s, counts, times, freqs, centers)?;
    let e = s + r.count;
    let key = ordering::first_key(&times[s..e]);
    let kept = keep_name(g.name, file, r, key, name);
    Ok(Gathered {
        passes: g.passes + 1,
        samples: e,
        name: kept,
    })
}
