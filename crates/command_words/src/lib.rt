// The command's words: maybe --as-received, then the mast by three Earth-fixed metres or by one position line, an inclination in degrees,
// then 1 to 16 file names.
#![tactic(auto)]

ghost use Rattle.std.specs.Prelude.{◌≡◌, ◌≤◌};
ghost use Rattle.decimal.specs.Read.{spells};
ghost use Rattle.decimal.specs.Read as Read;
ghost use Rattle.command_words.specs.Words.{as_received, off_ground, is_line, mast_words, layout_of, request_of, mast_of, numbered, inclination_of, xyz_mast};

use decimal::read;
use decimal::read::NumberError;
use frame::Vec3;
use refusal::Refusal;

// The word that says that frequencies are as a receiver hears them, in any case of its letters.
pub fn is_as_received(w: &[u8]) -> bool
    ensures { result ≡ spells w.now as_received }
{
    read::spells(w, b"--as-received")
}

// A mast that is not near the ground.
pub fn is_off_ground(v: Vec3) -> bool
    ensures { result ≡ off_ground v }
{
    let d = roots::sqrt(v.x * v.x + v.y * v.y + v.z * v.z);
    d < 6300e3 || 6500e3 < d
}

// Whether --as-received was said, which word the first file is, and how many files there are.
#[derive(Clone, Copy)]
pub struct Layout {
    pub received: bool,
    pub first: usize,
    pub files: usize,
}

// The mast's position in metres, and an inclination in radians.
#[derive(Clone, Copy)]
pub struct Mast {
    pub rec_ecef: Vec3,
    pub initial_i: f64,
}

// Why the mast's words say none: which of X, Y, Z and the inclination, counted from 1, is no number, or is one with too many digits or
// too large an exponent; or why a position line is refused.
#[derive(Clone, Copy, PartialEq, Eq, Debug)]
pub enum MastError {
    NoNumber(usize),
    LongNumber(usize),
    NoPlace(Refusal),
}

// What the words ask for. Where the files stand does not turn on whether the mast's words say one.
#[derive(Clone, Copy)]
pub struct Request {
    pub mast: Result<Mast, MastError>,
    pub layout: Layout,
}

// Why they ask for nothing.
#[derive(Clone, Copy, PartialEq, Eq, Debug)]
pub enum WordsError {
    TooFew,
    TooMany,
}

// A first word with a comma is a position line.
fn is_line(w: &[u8]) -> bool
    ensures { result ≡ is_line w.now }
{
    w.contains(&b',')
}

// How many words say mast and inclination.
fn mast_words(line: bool) -> usize
    ensures { (result ≡ mast_words line) × (result ≤ 4) }
{
    if line { 2 } else { 4 }
}

// The number that word k says.
#[tactic(auto, unfolding(crate::specs::Words::numbered))]
fn number(k: usize, w: &[u8]) -> Result<f64, MastError>
    ensures { result ≡ numbered k (Read.number w.now) }
{
    match read::parse(w) {
        Ok(v) => Ok(v),
        Err(NumberError::NotANumber) => Err(MastError::NoNumber(k)),
        Err(NumberError::TooLong) => Err(MastError::LongNumber(k)),
    }
}

// A mast at this place, with the inclination's word, in degrees.
fn inclined(rec_ecef: Vec3, i: &[u8]) -> Result<Mast, MastError>
    ensures { result ≡ inclination_of rec_ecef (Read.number i.now) }
{
    let degrees = number(4, i)?;
    Ok(Mast {
        rec_ecef,
        initial_i: float::to_radians(degrees),
    })
}

// A mast by X, Y and Z.
fn by_numbers(x: &[u8], y: &[u8], z: &[u8], i: &[u8]) -> Result<Mast, MastError>
    ensures { result ≡ xyz_mast (Read.number x.now) (Read.number y.now) (Read.number z.now) (Read.number i.now) }
{
    let x = number(1, x)?;
    let y = number(2, y)?;
    let z = number(3, z)?;
    inclined(Vec3 { x, y, z }, i)
}

// What the first four words say, or, where the first is a position line, the first two; the first that is wrong answers.
fn mast_of(x: &[u8], y: &[u8], z: &[u8], i: &[u8]) -> Result<Mast, MastError>
    ensures { result ≡ mast_of x.now y.now z.now i.now }
{
    if !is_line(x) {
        return by_numbers(x, y, z, i);
    }
    match geodetic::line::read_position(x) {
        Ok(v) => inclined(v, y),
        Err(refusal) => Err(MastError::NoPlace(refusal)),
    }
}

// Where the files stand, behind k words of mast and inclination.
fn layout_of(received: bool, k: usize, files: usize) -> Layout
    requires { k ≤ 4 }
    ensures { result ≡ layout_of received k files }
{
    let before = if received { 2 } else { 1 };
    Layout {
        received,
        first: before + k,
        files,
    }
}

// Of so many words, the program's own name among them and --as-received not, of which x, y, z and i follow the name.
pub fn request_of(
    received: bool,
    words: usize,
    x: &[u8],
    y: &[u8],
    z: &[u8],
    i: &[u8],
) -> Result<Request, WordsError>
    ensures { result ≡ request_of received words x.now y.now z.now i.now }
{
    let k = mast_words(is_line(x));
    if words < k + 2 {
        return Err(WordsError::TooFew);
    }
    if k + 17 < words {
        return Err(WordsError::TooMany);
    }
    let layout = layout_of(received, k, words - (k + 1));
    let mast = mast_of(x, y, z, i);
    Ok(Request { mast, layout })
}
