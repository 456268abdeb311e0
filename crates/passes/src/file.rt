// A pass file. The functions that require something are internal: their callers meet it by proof.
ghost use Rattle.std.specs.Prelude.{◌≡◌, ◌≤◌, length, take, Ok};
ghost use Rattle.std.proofs.lemmas.List.Edits.{sets};
ghost use Rattle.passes.specs.File as File;

use super::line::Line;
use super::pieces::Span;
use super::{line, pieces};
use refusal::Refusal;

// What a file says. The name, where a line gives one, is this part of the file.
#[derive(Clone, Copy)]
pub struct PassFile {
    pub name: Option<Span>,
    pub center_freq: f64,
    pub count: usize,
}

// Before the first line.
fn opening() -> PassFile
    ensures { result ≡ File.opening }
{
    PassFile {
        name: None,
        center_freq: 150800000.0,
        count: 0,
    }
}

// A line's sample at place k, where there is such a place.
fn store(x: Line, k: usize, times: &mut [i64], freqs: &mut [f64])
    requires { length times.old ≡ length freqs.old }
    ensures { File.Stored (Ok x) k times.old times.new freqs.old freqs.new }
{
    if let Line::Sample(t, f) = x {
        if k < times.len() {
            times[k] = t;
            freqs[k] = f;
        }
    }
}

// One line more, and its sample behind those before it.
fn step(
    file: &[u8],
    at: usize,
    n: usize,
    s: PassFile,
    times: &mut [i64],
    freqs: &mut [f64],
) -> Result<PassFile, Refusal>
    requires { File.BeforeLine file.now at n s times.old freqs.old }
    ensures { File.Stepped file.now at n s times.old times.new freqs.old freqs.new result }
{
    let e = at + n;
    let x = line::read_line(&file[at..e])?;
    store(x, s.count, times, freqs);
    Ok(match x {
        Line::Skipped => s,
        Line::Name(p) => PassFile {
            name: Some(Span {
                start: at + p.start,
                end: at + p.end,
            }),
            ..s
        },
        Line::Center(center_freq) => PassFile { center_freq, ..s },
        Line::Sample(_, _) => PassFile {
            count: s.count + 1,
            ..s
        },
    })
}

// All lines, up to the first that is refused, with as many of their samples as there are places for.
fn scan(file: &[u8], times: &mut [i64], freqs: &mut [f64]) -> Result<PassFile, Refusal>
    requires { length times.old ≡ length freqs.old }
    ensures { File.Scan file.now times.old times.new freqs.old freqs.new result }
{
    let mut s = opening();
    let mut at = 0;
    while at < file.len() {
        let c = pieces::line(&file[at..]);
        s = step(file, at, c.size, s, times, freqs)?;
        at += c.next;
    }
    Ok(s)
}

// Reads a pass file. Its samples go into `times` (nanoseconds since 1970) and `freqs`: a refusal writes none of them, so they
// are kept apart until the last line is read.
pub fn read_pass_file(
    file: &[u8],
    times: &mut [i64],
    freqs: &mut [f64],
) -> Result<PassFile, Refusal>
    ensures { File.Reads file.now times.old times.new freqs.old freqs.new result }
{
    let mut kept_times = [0i64; 4096];
    let mut kept_freqs = [0.0f64; 4096];
    let s = scan(file, &mut kept_times, &mut kept_freqs)?;
    let n = s.count;
    if 4096 < n {
        return Err(Refusal::Sizes);
    }
    if times.len() < n || freqs.len() < n {
        return Err(Refusal::ShortMemory);
    }
    times[..n].copy_from_slice(&kept_times[..n]);
    freqs[..n].copy_from_slice(&kept_freqs[..n]);
    Ok(s)
}

// The name at this part of a file: empty where that is no part of it.
#[tactic(auto, unfolding(crate::specs::File::name_at))]
pub fn name_at(file: &[u8], part: Span) -> &[u8]
    ensures { result.now ≡ File.name_at file.now part }
{
    file.get(part.start..part.end).unwrap_or(&[])
}

// The name as a part of the file that the answer is of: empty where no name is seen, and where it is no part of this file.
pub fn name(file: &[u8], r: PassFile) -> &[u8]
    ensures { result.now ≡ File.name_of file.now r }
{
    match r.name {
        Some(part) => name_at(file, part),
        None => &[],
    }
}
