// A line of a pass file.
ghost use Rattle.std.specs.Prelude.{◌≡◌, true, ◌+◌, ◌<◌, length};
ghost use Rattle.decimal.specs.Read as Read;
ghost use Rattle.passes.specs.Text as Text;
ghost use Rattle.passes.specs.Line as Spec;

use super::pieces;
use super::pieces::Span;
use decimal::read;
use decimal::read::NumberError;
use refusal::Refusal;
use rfc3339::Timestamp;

// 1957 and 2057 in seconds as RFC 3339's reader counts them, and how many nanoseconds before 1970 the first is.
const READER_1957: u64 = 61757078400;

const READER_2057: u64 = 64912838400;

const FROM_1957: i64 = 410227200000000000;

// How many bytes a line has at most.
const LONGEST: usize = 256;

#[derive(Clone, Copy)]
pub enum Line {
    Skipped,
    // The name is this part of the line.
    Name(Span),
    Center(f64),
    // Nanoseconds since 1970, and a frequency.
    Sample(i64, f64),
}

// From 1957 up to 2057.
fn inside(t: Timestamp) -> bool
    ensures { result ≡ Spec.inside t.seconds t.nanos }
{
    (READER_1957..READER_2057).contains(&t.seconds) && t.nanos <= 999999999
}

fn since_1970(t: Timestamp) -> i64
    requires { Spec.inside t.seconds t.nanos ≡ true }
    ensures { result ≡ Spec.since1970 t.seconds t.nanos }
{
    ((t.seconds - READER_1957) * 1000000000 + t.nanos) as i64 - FROM_1957
}

// A moment outside the range goes before a number that is too long.
fn sample_of(t: Timestamp, v: Result<f64, NumberError>) -> Result<Line, Refusal>
    ensures { result ≡ Spec.sample_of t v }
{
    match v {
        Err(NumberError::NotANumber) => Ok(Line::Skipped),
        _ if !inside(t) => Err(Refusal::MomentRange),
        Ok(f) => Ok(Line::Sample(since_1970(t), f)),
        Err(_) => Err(Refusal::NumberSize),
    }
}

#[tactic(auto, unfolding(crate::specs::Line::fields))]
fn fields(a: &[u8], r: &[u8]) -> Result<Line, Refusal>
    ensures { result ≡ Spec.fields a.now r.now }
{
    let Some(t) = rfc3339::parse_from_rfc3339(a) else {
        return Ok(Line::Skipped);
    };
    let k = pieces::until(b',', r);
    sample_of(t, read::parse(&r[..k]))
}

#[tactic(auto, unfolding(crate::specs::Line::sample))]
fn sample(t: &[u8]) -> Result<Line, Refusal>
    ensures { result ≡ Spec.sample t.now }
{
    let k = pieces::until(b',', t);
    if k == t.len() {
        return Ok(Line::Skipped);
    }
    fields(&t[..k], &t[k + 1..])
}

fn center_of(v: Result<f64, NumberError>) -> Result<Line, Refusal>
    ensures { result ≡ Spec.center_line v }
{
    match v {
        Ok(f) => Ok(Line::Center(f)),
        Err(NumberError::NotANumber) => Ok(Line::Skipped),
        Err(NumberError::TooLong) => Err(Refusal::NumberSize),
    }
}

// A header, its key trimmed; its value stands at s in the line.
#[tactic(auto, unfolding(crate::specs::Line::named))]
fn named(key: &[u8], s: usize, value: &[u8]) -> Result<Line, Refusal>
    requires { s + length value.now < 9223372036854775808 }
    ensures { result ≡ Spec.named key.now s value.now }
{
    let v = pieces::trim(value);
    if read::spells(key, b"satellite_name") {
        return Ok(Line::Name(Span {
            start: s + v.start,
            end: s + v.end,
        }));
    }
    if read::spells(key, b"center_frequency") {
        return center_of(read::parse(&value[v.start..v.end]));
    }
    Ok(Line::Skipped)
}

fn entry(key: &[u8], s: usize, value: &[u8]) -> Result<Line, Refusal>
    requires { s + length value.now < 9223372036854775808 }
    ensures { result ≡ Spec.named (Text.trim key.now) s value.now }
{
    let k = pieces::trim(key);
    named(&key[k.start..k.end], s, value)
}

// What stands at s behind a header's #.
#[tactic(auto, unfolding(crate::specs::Line::header))]
fn header(h: &[u8], s: usize) -> Result<Line, Refusal>
    requires { s + length h.now < 9223372036854775808 }
    ensures { result ≡ Spec.header s h.now }
{
    let k = pieces::until(b':', h);
    if k == h.len() {
        return Ok(Line::Skipped);
    }
    entry(&h[..k], s + (k + 1), &h[k + 1..])
}

// A line without the blanks at its ends, of which s stood before it.
#[tactic(auto, unfolding(crate::specs::Line::trimmed_line))]
fn trimmed(t: &[u8], s: usize) -> Result<Line, Refusal>
    requires { s + length t.now < 9223372036854775808 }
    ensures { result ≡ Spec.trimmed_line s t.now }
{
    match t {
        [] => Ok(Line::Skipped),
        [b'#', h @ ..] => header(h, s + 1),
        _ => sample(t),
    }
}

// What a line says.
#[tactic(auto, unfolding(crate::specs::Line::line_of))]
pub fn read_line(l: &[u8]) -> Result<Line, Refusal>
    ensures { result ≡ Spec.line_of l.now }
{
    if !pieces::ascii(l) {
        return Err(Refusal::NonAscii);
    }
    if LONGEST < l.len() {
        return Err(Refusal::LongLine);
    }
    let p = pieces::trim(l);
    trimmed(&l[p.start..p.end], p.start)
}
