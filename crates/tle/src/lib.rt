// An orbit as a name line and two element lines, by the columns of the NORAD two-line format.
#![tactic(auto)]

mod elements;
mod lines;

ghost use Rattle.std.specs.Prelude.{◌≡◌, [], ◌++◌, ◌∷◌, ◌+◌, ◌≤◌, T, length, take};
ghost use Rattle.std.proofs.lemmas.List.Edits.{sets};
ghost use Rattle.moment.specs.Range.{Within};
ghost use Rattle.tle.specs.Elements.{epoch_at};
ghost use Rattle.tle.specs.Lines.{weight_of, weight_sum, checksum_of, line1, line2};
ghost use Rattle.tle.specs.Answer.{orbit_fits, Formats};

use moment::Instant;
use refusal::Refusal;
use solution::SolvedOrbit;

// What a byte adds to a line's checksum.
fn weight(c: u8) -> u32
    ensures { (result ≡ weight_of c) × (result ≤ 9) }
{
    match c {
        b'0'..=b'9' => (c - b'0') as u32,
        b'-' => 1,
        _ => 0,
    }
}

// Of columns that are no more than a line's 68.
#[tactic(auto, using(crate::proofs::Tests::weights))]
fn sum_of(columns: &[u8]) -> u32
    requires { length columns.now ≤ 68 }
    ensures { result ≡ weight_sum columns.now }
{
    columns.iter().map(|c| weight(*c)).sum()
}

// Of a line's first 68 columns, or all if it has fewer: the digits, and one for each minus, modulo 10.
pub fn tle_checksum(line: &[u8]) -> u32
    ensures { result ≡ checksum_of (take 68 line.now) }
{
    sum_of(&line[..line.len().min(68)]) % 10
}

fn first_line(t: Instant) -> [u8; 69]
    requires { Within 0 t.secs t.nanos }
    ensures { result ≡ line1 (epoch_at t.secs t.nanos) }
{
    let e = elements::epoch_of(t);
    lines::line_1(e.year, e.day)
}

fn second_line(orbit: SolvedOrbit) -> [u8; 69]
    requires { T (orbit_fits orbit) }
    ensures { result ≡ line2 orbit }
{
    let i_deg = elements::degrees(orbit.i);
    let raan_deg = elements::within_turn(elements::degrees(orbit.raan0));
    let u0_deg = elements::within_turn(elements::degrees(orbit.u0));
    lines::line_2(i_deg, raan_deg, u0_deg, elements::mean_motion(orbit.a))
}

// Name and lines, each with a line feed, into the first bytes of `out`.
fn join(name: &[u8], line1: &[u8; 69], line2: &[u8; 69], out: &mut [u8])
    requires { length name.now + 141 ≤ length out.old }
    ensures { out.new ≡ sets out.old 0 (name.now ++ 10 ∷ line1.now ++ 10 ∷ line2.now ++ 10 ∷ []) }
{
    let n = name.len();
    lines::put_line(name, out, 0);
    lines::put_line(line1, out, n + 1);
    lines::put_line(line2, out, n + 71);
}

// The name line and the two element lines, each with a line feed, into the first bytes of `out`, and how many bytes they are.
pub fn format_tle_catalog(name: &[u8], orbit: SolvedOrbit, out: &mut [u8]) -> Result<usize, Refusal>
    ensures { Formats name.now orbit out.old out.new result }
{
    let epoch = Instant::try_from(orbit.epoch)?;
    if !elements::accepted_orbit(orbit) || !elements::accepted_name(name) {
        return Err(Refusal::Unprintable);
    }
    let length = name.len() + 141;
    if out.len() < length {
        return Err(Refusal::ShortMemory);
    }
    join(name, &first_line(epoch), &second_line(orbit), out);
    Ok(length)
}
