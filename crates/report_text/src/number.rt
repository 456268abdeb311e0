// A float to six places. The functions that require something are internal: their callers meet it by proof.
ghost use Rattle.std.specs.Prelude.{◌≡◌, ◌≤◌};
ghost use Rattle.append.specs.Append.{Puts};
ghost use Rattle.report_text.specs.Number.{millionths_of, three_of, six_of, minus_text, size_text, rounded_of, real_of};

use append::Text;
use decimal::fixed::digit;

// |v| in millionths, to the nearest.
fn millionths(v: f64) -> u64
    ensures { result ≡ millionths_of v }
{
    float::cast::saturating_f64_to_u64(float::round(float::abs(v) * 1000000.0))
}

// The digits of n at 10^(i + 2), 10^(i + 1) and 10^i.
fn three(n: u64, i: usize, text: &mut Text<'_>)
    requires { i ≤ 3 }
    ensures { Puts (three_of n i) text.old text.new }
{
    text.put(&[digit(n, i + 2), digit(n, i + 1), digit(n, i)]);
}

fn six(n: u64, text: &mut Text<'_>)
    ensures { Puts (six_of n) text.old text.new }
{
    three(n, 3, text);
    three(n, 0, text);
}

// A minus, where what is printed is below zero.
fn sign(v: f64, n: u64, text: &mut Text<'_>)
    ensures { Puts (minus_text v n) text.old text.new }
{
    if n != 0 && v < 0.0 {
        text.put(b"-");
    }
}

// n millionths.
fn size(n: u64, text: &mut Text<'_>)
    ensures { Puts (size_text n) text.old text.new }
{
    text.put_number(n / 1000000);
    text.put(b".");
    six(n, text);
}

fn rounded(v: f64, text: &mut Text<'_>)
    ensures { Puts (rounded_of v) text.old text.new }
{
    let n = millionths(v);
    sign(v, n, text);
    size(n, text);
}

// v to six places. NaN and what is too large for that are said so.
pub fn real(v: f64, text: &mut Text<'_>)
    ensures { Puts (real_of v) text.old text.new }
{
    if v.is_nan() {
        text.put(b"not a number");
    } else if 1e12 < float::abs(v) {
        text.put(b"over 1e12 in size");
    } else {
        rounded(v, text);
    }
}
