// Decimals and times, from text and to text.
ghost use Rattle.std.specs.Prelude.{◌≡◌, cond, length};
ghost use Rattle.std.proofs.lemmas.List.Edits.{sets};
ghost use Rattle.decimal.specs.Read as Read;
ghost use Rattle.decimal.specs.Fixed as Fixed;
ghost use Rattle.rfc3339.specs.Rfc3339.{date_time_of};
ghost use Rattle.exports.specs.Texts.{number_refusal, number_taken, number_value, is_time, time_seconds, time_nanos};

use decimal::read::NumberError;
use refusal::Refusal;

// `taken` becomes 1 for a number, which goes to `out`, and 0 for what Rust takes for none.
#[tactic(auto, unfolding(crate::specs::Texts::number_refusal, crate::specs::Texts::number_taken, crate::specs::Texts::number_value))]
#[unsafe(no_mangle)]
pub extern "C" fn wisvalom_parse(text: &[u8], taken: &mut u32, out: &mut f64) -> u32
    ensures value { result ≡ number_refusal (Read.number text.now) }
    ensures taken_after { taken.new ≡ number_taken taken.old (Read.number text.now) }
    ensures out_after { out.new ≡ number_value out.old (Read.number text.now) }
{
    let answer = decimal::read::parse(text);
    match answer {
        Ok(x) => {
            *taken = 1;
            *out = x;
            0
        }
        Err(NumberError::NotANumber) => {
            *taken = 0;
            0
        }
        Err(NumberError::TooLong) => Refusal::NumberSize.number(),
    }
}

// v with so many places in `width` columns of `out` from `at`.
#[unsafe(no_mangle)]
pub extern "C" fn wisvalom_put_fixed(
    v: f64,
    places: usize,
    pad: u8,
    out: &mut [u8],
    at: usize,
    width: usize,
) -> bool
    ensures value { result ≡ Fixed.printable v places width at (length out.old) }
    ensures out_after { out.new ≡ cond result (sets out.old at (Fixed.fixed_text pad places (Fixed.nearest_units places v) width)) out.old }
{
    decimal::fixed::put_fixed(v, places, pad, out, at, width)
}

// Seconds from a day before the year 0000, and nanoseconds.
#[tactic(auto, unfolding(crate::specs::Texts::is_time, crate::specs::Texts::time_seconds, crate::specs::Texts::time_nanos))]
#[unsafe(no_mangle)]
pub extern "C" fn wisvalom_parse_from_rfc3339(
    text: &[u8],
    seconds: &mut u64,
    nanos: &mut u64,
) -> bool
    ensures value { result ≡ is_time (date_time_of text.now) }
    ensures seconds_after { seconds.new ≡ time_seconds seconds.old (date_time_of text.now) }
    ensures nanos_after { nanos.new ≡ time_nanos nanos.old (date_time_of text.now) }
{
    let answer = rfc3339::parse_from_rfc3339(text);
    match answer {
        None => false,
        Some(t) => {
            *seconds = t.seconds;
            *nanos = t.nanos;
            true
        }
    }
}
