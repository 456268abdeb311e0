// The command: fits one circular orbit to the passes in the files that its words name, and writes its name line and element lines to
// standard output. Everything else goes to standard error. `fit_passes`, `fit_passes_latitude` and `fit_passes_refused` are this on three sets of words.
#![tactic(auto)]

mod fitting;

ghost use Rattle.std.specs.Prelude.{◌≤◌};
ghost use Rattle.std.specs.Counts.{IsPrefixLen};
ghost use Rattle.command_words.specs.Words.{Few};

use command_words::{Layout, Mast, MastError, Request, WordsError};
use std::env::{Env, FillError};
use std::io;
use std::io::{Stderr, Stdout};
use std::rt::Files;

// Where the command's words and files come from, and where it writes.
#[derive(Drop)]
struct Command<'a, R> {
    rt: &'a R,
    stdout: Stdout,
    stderr: Stderr,
}

// Word i into the first places of out; of one that is too long, as much as finds room: more than any number or position line that is
// taken has.
fn first_word(rt: &impl Env, i: usize, out: &mut [u8]) -> usize
    ensures { IsPrefixLen result out.new }
{
    match rt.arg(i, out) {
        Ok(n) => n,
        Err(FillError::TooLong) => out.len(),
        Err(FillError::NotPresent) => 0,
    }
}

// Why the words ask for nothing.
fn tell(stderr: Stderr, error: WordsError) {
    match error {
        WordsError::TooFew => messages::usage(stderr),
        WordsError::TooMany => messages::too_many(stderr),
    }
}

// Why the mast's words say none.
fn tell_no_mast(stderr: Stderr, error: MastError) {
    match error {
        MastError::NoNumber(k) => messages::no_number(stderr, k),
        MastError::LongNumber(k) => messages::long_number(stderr, k),
        MastError::NoPlace(refusal) => messages::no_place(stderr, refusal),
    }
}

impl<'a, R: Files + Env> Command<'a, R> {
    // Gathers the files and fits.
    fn fit_files(&self, layout: Layout, mast: Mast) -> io::Result<()>
        requires { Few layout }
    {
        let mut counts = [0u32; 16];
        let mut times = [0i64; 4096];
        let mut freqs = [0.0f64; 4096];
        let mut centers = [0.0f64; 16];
        let mut name = [0u8; 256];
        let Ok(g) = pass_files::gather_files(
            self.rt,
            self.stderr,
            layout.first,
            layout.files,
            &mut counts,
            &mut times,
            &mut freqs,
            &mut centers,
            &mut name,
        ) else {
            return Ok(());
        };
        let p = g.passes;
        let s = g.samples;
        let size = g.name.size;
        if size == 0 {
            messages::empty_name(self.stderr);
        }
        self.check_and_fit(
            layout,
            mast,
            &counts[..p],
            &times[..s],
            &mut freqs[..s],
            &centers[..p],
            &name[..size],
        )
    }

    // The mast, then the files; where its words say none, no file is opened.
    fn fit_request(&self, request: Request) -> io::Result<()>
        requires { Few request.layout }
    {
        match request.mast {
            Ok(mast) => {
                messages::position(self.stderr, mast.rec_ecef);
                self.fit_files(request.layout, mast)
            }
            Err(error) => {
                tell_no_mast(self.stderr, error);
                Ok(())
            }
        }
    }

    // Of so many words, the program's name among them and `--as-received` not, of which the mast's first is word k. A position line has 256
    // bytes at most, and a line end.
    fn words_from(&self, k: usize, received: bool, count: usize) -> io::Result<()>
        requires { k ≤ 2 }
    {
        let mut x = [0u8; 259];
        let mut y = [0u8; 64];
        let mut z = [0u8; 64];
        let mut i = [0u8; 64];
        let nx = first_word(self.rt, k, &mut x);
        let ny = messages::arg(self.rt, k + 1, &mut y);
        let nz = messages::arg(self.rt, k + 2, &mut z);
        let ni = messages::arg(self.rt, k + 3, &mut i);
        let request = command_words::request_of(
            received,
            count,
            &x[..nx],
            &y[..ny],
            &z[..nz],
            &i[..ni],
        );
        match request {
            Ok(r) => self.fit_request(r),
            Err(error) => {
                tell(self.stderr, error);
                Ok(())
            }
        }
    }
}

// Whether the first word says that frequencies are as received.
fn as_received(rt: &impl Env) -> bool {
    let mut w = [0u8; 64];
    let n = messages::arg(rt, 1, &mut w);
    command_words::is_as_received(&w[..n])
}

// How many words there are, the program's name among them.
fn word_count(rt: &impl Env) -> usize {
    let mut start = [0u8; 1];
    for i in 0..usize::MAX {
        if let Err(FillError::NotPresent) = rt.arg(i, &mut start) {
            return i;
        }
    }
    usize::MAX
}

// Fails where the lines cannot be written to standard output.
pub fn run<R: Files + Env>(rt: &R, stdout: Stdout, stderr: Stderr) -> io::Result<()> {
    let command = Command { rt, stdout, stderr };
    let count = word_count(rt);
    if count == 0 {
        messages::usage(stderr);
        return Ok(());
    }
    if as_received(rt) {
        messages::received(stderr);
        return command.words_from(2, true, count - 1);
    }
    messages::as_predicted(stderr);
    command.words_from(1, false, count)
}
