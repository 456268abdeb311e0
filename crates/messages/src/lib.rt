// What the command says on standard error: `report_text` makes the report's lines, and here they are written.
#![tactic(auto)]

ghost use Rattle.std.specs.Counts.{IsPrefixLen};

use command::report::Biases;
use frame::Vec3;
use pass_files::say::{put, write};
use refusal::Refusal;
use report_text::{fitted, refused};
use std::env::Env;
use std::io::Stderr;

pub fn usage(stderr: Stderr) {
    write(
        stderr,
        b"usage: fit-passes [--as-received] X Y Z INCLINATION FILE..\n",
    );
    write(
        stderr,
        b"       fit-passes [--as-received] LAT,LON,HEIGHT INCLINATION FILE..\n",
    );
    write(
        stderr,
        b"X Y Z: the mast's Earth-fixed position in metres; LAT,LON,HEIGHT: the same in degrees and metres above the ellipsoid of WGS 84, without blanks\n",
    );
    write(
        stderr,
        b"INCLINATION: a first guess in degrees; FILE..: 1 to 16 pass files\n",
    );
    write(
        stderr,
        b"--as-received: the frequencies fall as the satellite goes by, as a receiver hears them\n",
    );
}

pub fn too_many(stderr: Stderr) {
    write(stderr, b"fit_passes: more than 16 files\n");
}

pub fn received(stderr: Stderr) {
    write(
        stderr,
        b"frequencies as received, falling: each is mirrored at its file's centre (--as-received)\n",
    );
}

pub fn as_predicted(stderr: Stderr) {
    write(
        stderr,
        b"frequencies as the fit predicts them, rising; give --as-received first if they fall\n",
    );
}

// A mast that is not near the ground.
pub fn position(stderr: Stderr, v: Vec3) {
    if command_words::is_off_ground(v) {
        write(
            stderr,
            b"warning: the position is less than 6300 km or more than 6500 km from the Earth's centre (latitude and longitude? write LAT,LON,HEIGHT in one word)\n",
        );
    }
}

pub fn empty_name(stderr: Stderr) {
    write(stderr, b"warning: the name is empty\n");
}

fn word_name(stderr: Stderr, k: usize) {
    match k {
        1 => write(stderr, b"X"),
        2 => write(stderr, b"Y"),
        3 => write(stderr, b"Z"),
        _ => write(stderr, b"INCLINATION"),
    }
}

// A message about one of the four numbers.
fn word(stderr: Stderr, k: usize, what: &[u8]) {
    write(stderr, b"fit_passes: ");
    word_name(stderr, k);
    write(stderr, b" ");
    write(stderr, what);
    write(stderr, b"\n");
}

pub fn no_number(stderr: Stderr, k: usize) {
    word(stderr, k, b"is not a number");
}

pub fn long_number(stderr: Stderr, k: usize) {
    word(
        stderr,
        k,
        b"has more than 19 digits, or an exponent outside -30 to 30",
    );
}

// A position line's refusal.
pub fn no_place(stderr: Stderr, refusal: Refusal) {
    put(stderr, |text| {
        refused::file_refusal(b"fit_passes: LAT,LON,HEIGHT", None, refusal, text)
    });
}

pub fn refusal(stderr: Stderr, refusal: Refusal) {
    put(stderr, |text| refused::refusal(refusal, text));
}

pub fn name_unprintable(stderr: Stderr) {
    write(
        stderr,
        b"fit_passes: refusal 11: the name is over 24 bytes or has a byte outside 32 to 126\n",
    );
}

pub fn orbit_unprintable(stderr: Stderr) {
    write(
        stderr,
        b"fit_passes: refusal 11: the orbit cannot be printed: a number is not finite, or the radius is outside 6500 to 20000 km\n",
    );
}

// The whole fit.
pub fn fit(stderr: Stderr, trials: usize, best: f64, rms: f64, samples: usize, passes: usize) {
    put(stderr, |text| {
        fitted::fit(trials, best, rms, samples, passes, text)
    });
}

// The residual beside the samples' own noise, for so many non-empty passes.
pub fn noise(stderr: Stderr, rms: f64, estimate: f64, passes: usize) {
    let ratio = noise::ratio(rms, estimate);
    let finding = noise::verdict(rms, estimate, passes);
    put(stderr, |text| {
        fitted::noise(estimate, ratio, finding, text)
    });
}

// Word i into the first places of out, and its length: none of a word that is missing or finds no room.
pub fn arg(rt: &impl Env, i: usize, out: &mut [u8]) -> usize
    ensures { IsPrefixLen result out.new }
{
    rt.arg(i, out).unwrap_or(0)
}

// Does this with the name of the file of word i.
fn with_name<F: FnOnce(&[u8])>(rt: &impl Env, i: usize, tell: F)
    requires { F.IsAlwaysCallable tell }
{
    let mut path = [0u8; 4096];
    let n = arg(rt, i, &mut path);
    tell(&path[..n]);
}

fn pass_line(stderr: Stderr, name: &[u8], b: Biases) {
    put(stderr, |text| {
        fitted::pass(name, b.dt, b.df, b.df1, b.df2, text)
    });
}

// The biases of the file of word i, if it has samples.
pub fn pass(rt: &impl Env, stderr: Stderr, i: usize, b: Biases) {
    if b.sampled {
        with_name(rt, i, |name| pass_line(stderr, name, b));
    }
}

fn refused_line(stderr: Stderr, name: &[u8], refusal: Refusal) {
    put(stderr, |text| {
        refused::file_refusal(name, None, refusal, text)
    });
}

// A refusal for what is in the file of word i.
pub fn file_refusal(rt: &impl Env, stderr: Stderr, i: usize, refusal: Refusal) {
    with_name(rt, i, |name| refused_line(stderr, name, refusal));
}

// The name of the file of word i.
fn word_of_file(rt: &impl Env, stderr: Stderr, i: usize) {
    with_name(rt, i, |name| write(stderr, name));
}

// The file of word i has the samples of that of word j.
pub fn twice(rt: &impl Env, stderr: Stderr, i: usize, j: usize) {
    write(stderr, b"warning: ");
    word_of_file(rt, stderr, i);
    write(stderr, b": the same samples as ");
    word_of_file(rt, stderr, j);
    write(stderr, b": the same file twice?\n");
}
