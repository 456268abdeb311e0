// A position line: latitude, longitude and height with commas between them.
ghost use Rattle.std.specs.Prelude.{◌≡◌, [], ◌∷◌, map};
ghost use Rattle.std.specs.Result.{MatchResult};
ghost use Rattle.refusal.specs.declared.Refusal.TheVariants.{PositionRange};
ghost use Rattle.decimal.specs.Read.{number};
ghost use Rattle.geodetic.specs.Line as Spec;

use decimal::read;
use decimal::read::NumberError;
use frame::Vec3;
use passes::pieces;
use refusal::Refusal;

// How many bytes a line has without its end.
#[tactic(auto, unfolding(crate::specs::Line::line_size))]
fn size(l: &[u8]) -> usize
    ensures { result ≡ Spec.line_size l.now }
{
    match l {
        [text @ .., b'\r', b'\n'] => text.len(),
        [text @ .., b'\n'] => text.len(),
        _ => l.len(),
    }
}

fn is_parsed(n: Result<f64, NumberError>) -> bool
    ensures { result ≡ Spec.parsed n }
{
    !matches!(n, Err(NumberError::NotANumber))
}

fn is_too_long(n: Result<f64, NumberError>) -> bool
    ensures { result ≡ Spec.too_long n }
{
    matches!(n, Err(NumberError::TooLong))
}

// NaN for what is no number: the limits refuse it.
fn value(n: Result<f64, NumberError>) -> f64
    ensures { result ≡ Spec.field_value n }
{
    n.unwrap_or(f64::NAN)
}

// Rust would parse all three, and one is too long.
fn is_one_too_long(
    lat: Result<f64, NumberError>,
    lon: Result<f64, NumberError>,
    alt: Result<f64, NumberError>,
) -> bool
    ensures { result ≡ Spec.one_too_long (lat ∷ lon ∷ alt ∷ []) }
{
    is_parsed(lat)
        && is_parsed(lon)
        && is_parsed(alt)
        && (is_too_long(lat) || is_too_long(lon) || is_too_long(alt))
}

fn place(
    lat: Result<f64, NumberError>,
    lon: Result<f64, NumberError>,
    alt: Result<f64, NumberError>,
) -> Result<Vec3, Refusal>
    ensures { result ≡ Spec.from_numbers (lat ∷ lon ∷ alt ∷ []) }
{
    if is_one_too_long(lat, lon, alt) {
        return Err(Refusal::NumberSize);
    }
    super::wgs84_to_ecef(value(lat), value(lon), value(alt))
}

// The number before the first comma, and what stands behind it. A field stands as it is: a blank in it belongs to it.
fn field(l: &[u8]) -> Result<(Result<f64, NumberError>, &[u8]), Refusal>
    ensures { MatchResult result (λ p. map number (Spec.fields_of l.now) ≡ (p.0 ∷ map number (Spec.fields_of p.1.now)))
        (λ r. (r ≡ PositionRange) × (map number (Spec.fields_of l.now) ≡ (number l.now ∷ []))) }
{
    let k = pieces::until(b',', l);
    if k == l.len() {
        return Err(Refusal::PositionRange);
    }
    Ok((read::parse(&l[..k]), &l[k + 1..]))
}

// Three numbers with commas between them, and no comma more.
fn fields(l: &[u8]) -> Result<Vec3, Refusal>
    ensures { result ≡ Spec.from_numbers (map number (Spec.fields_of l.now)) }
{
    let (lat, behind) = field(l)?;
    let (lon, alt) = field(behind)?;
    let k = pieces::until(b',', alt);
    let end = alt.len();
    if k != end {
        return Err(Refusal::PositionRange);
    }
    place(lat, lon, read::parse(&alt[..k]))
}

// The place that a line says: three numbers, the blanks at the line's ends trimmed and those beside commas not.
#[tactic(auto, unfolding(crate::specs::Line::read_position_of, crate::specs::Line::line_refusal, crate::specs::Line::from_numbers))]
pub fn read_position(line: &[u8]) -> Result<Vec3, Refusal>
    ensures { result ≡ Spec.read_position_of line.now }
{
    if !pieces::ascii(line) {
        return Err(Refusal::NonAscii);
    }
    if 256 < size(line) {
        return Err(Refusal::LongLine);
    }
    let p = pieces::trim(line);
    fields(&line[p.start..p.end])
}
