// The files that the command names: each is opened, read and closed, and `command::gather` adds it to the pass set. What is wrong with
// one is told on standard error.
#![tactic(auto)]

mod errors;
pub mod say;

ghost use Rattle.std.specs.Prelude.{◌≡◌, ◌≤◌, length, IfSome};
ghost use Rattle.std.specs.Io.{ReadsAtMost};
ghost use Rattle.std.specs.Counts.{IsPrefixLen};
ghost use Rattle.command.specs.Gather.{arrays, Continues, Gathers};

use command::gather;
use command::gather::{Gathered, Name};
use std::env::{Env, FillError};
use std::fs::File;
use std::io;
use std::io::{Read, Stderr};
use std::rt::Files;

// The bytes of the largest file that is read: 4,096 lines of 256 bytes with CR LF take 1,056,768.
const MAX_FILE: usize = 1114112;

// Reads up to the file's end, or until the buffer is full.
fn read_all(file: &mut impl Read, buf: &mut [u8]) -> io::Result<usize>
    ensures { ReadsAtMost result buf.new }
{
    let mut at = 0usize;
    while at < buf.len() {
        let n = file.read(&mut buf[at..])?;
        if n == 0 {
            break;
        }
        at += n;
    }
    Ok(at)
}

// A byte more than the largest file, by which a larger one is known.
fn buffer() -> [u8; 1114113]
    ensures { 1114113 ≡ length result }
{
    [0; 1114113]
}

// The same of a file that is not too large. Why one is not taken has been told.
fn read_file(stderr: Stderr, file: &mut impl Read, path: &[u8], buf: &mut [u8]) -> Option<usize>
    ensures { IfSome result (λ n. IsPrefixLen n buf.new) }
{
    match read_all(file, buf) {
        Ok(size) if size <= MAX_FILE => return Some(size),
        Ok(_) => say::file(stderr, path, b"larger than 1114112 bytes"),
        Err(e) => errors::tell(stderr, path, e),
    }
    None
}

// Before a file is added: whether it names another satellite than those before it.
fn tell_name(stderr: Stderr, path: &[u8], kept: Name, name: &[u8], file: &[u8]) {
    if kept.key.is_some() {
        say::other_name(stderr, path, name, kept.size, file);
    }
}

// The open file's content is added. Where it is not, the set is given back as it was, and why has been told.
fn add_content(
    stderr: Stderr,
    from: &mut impl Read,
    path: &[u8],
    g: Gathered,
    counts: &mut [u32],
    times: &mut [i64],
    freqs: &mut [f64],
    centers: &mut [f64],
    name: &mut [u8],
) -> Result<Gathered, Gathered>
    ensures { Continues g (arrays counts.old times.old freqs.old centers.old name.old)
        (arrays counts.new times.new freqs.new centers.new name.new) result }
{
    let mut bytes = buffer();
    let Some(n) = read_file(stderr, from, path, &mut bytes) else {
        return Err(g);
    };
    tell_name(stderr, path, g.name, name, &bytes[..n]);
    match gather::add(&bytes[..n], g, counts, times, freqs, centers, name) {
        Ok(set) => {
            say::skipped(stderr, path, &bytes[..n]);
            Ok(set)
        }
        Err(refusal) => {
            say::refused(stderr, path, &bytes[..n], refusal);
            Err(g)
        }
    }
}

// The system's numbers for a word that is missing, and for one that is too long.
const EINVAL: i32 = 22;

const ENAMETOOLONG: i32 = 36;

// The file's name that word i is, into the first places of `path`, and its length. That there is none has been told.
fn name_of(rt: &impl Env, stderr: Stderr, i: usize, path: &mut [u8]) -> Option<usize>
    ensures { IfSome result (λ n. IsPrefixLen n path.new) }
{
    let code = match rt.arg(i, path) {
        Ok(n) => return Some(n),
        Err(FillError::NotPresent) => EINVAL,
        Err(FillError::TooLong) => ENAMETOOLONG,
    };
    errors::tell(
        stderr,
        b"fit-passes: a file's name",
        io::Error::from_raw_os_error(code),
    );
    None
}

// The file of this name, open. That it could not be opened has been told. Names are text here: another is told of and not opened.
fn open<R: Files>(rt: &R, stderr: Stderr, path: &[u8]) -> Option<R::File> {
    let Ok(text) = std::str::from_utf8(path) else {
        say::file(stderr, path, b"the name is not UTF-8");
        return None;
    };
    match File::open(rt, text) {
        Ok(file) => Some(file),
        Err(e) => {
            errors::tell(stderr, path, e);
            None
        }
    }
}

// The file that word i names is added. Where it is not, the set is given back as it was, and why has been told.
fn add_word<R: Files + Env>(
    rt: &R,
    stderr: Stderr,
    i: usize,
    g: Gathered,
    counts: &mut [u32],
    times: &mut [i64],
    freqs: &mut [f64],
    centers: &mut [f64],
    name: &mut [u8],
) -> Result<Gathered, Gathered>
    ensures { Continues g (arrays counts.old times.old freqs.old centers.old name.old)
        (arrays counts.new times.new freqs.new centers.new name.new) result }
{
    let mut path = [0u8; 4096];
    let Some(n) = name_of(rt, stderr, i, &mut path) else {
        return Err(g);
    };
    let Some(mut file) = open(rt, stderr, &path[..n]) else {
        return Err(g);
    };
    add_content(
        stderr,
        &mut file,
        &path[..n],
        g,
        counts,
        times,
        freqs,
        centers,
        name,
    )
}

// The n files from word `first` on, in their order; none after one that fails, and then the error is the set of those before it. What a
// file holds no contract can say: there are some n contents, or fewer, of which the arrays hold the set. `fit_command` meets the
// `requires` by proof.
pub fn gather_files<R: Files + Env>(
    rt: &R,
    stderr: Stderr,
    first: usize,
    n: usize,
    counts: &mut [u32],
    times: &mut [i64],
    freqs: &mut [f64],
    centers: &mut [f64],
    name: &mut [u8],
) -> Result<Gathered, Gathered>
    requires { (n ≤ 16) × (first ≤ 6) }
    ensures { Gathers n result (arrays counts.new times.new freqs.new centers.new name.new) }
{
    let mut g = gather::no_files(name);
    for i in 0..n {
        g = add_word(
            rt,
            stderr,
            i + first,
            g,
            counts,
            times,
            freqs,
            centers,
            name,
        )?;
    }
    Ok(g)
}
