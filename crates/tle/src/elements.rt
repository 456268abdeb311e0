// What the lines print of an orbit, and which orbits and names they take. `within_turn` and `epoch_of` serve
// `format_tle_catalog`, which has tested angles and epoch.
ghost use Rattle.std.specs.Prelude.{◌≡◌, T};
ghost use Rattle.decimal.specs.Fixed.{within};
ghost use Rattle.moment.specs.Range.{Within};
ghost use Rattle.tle.specs.Elements.{printed_degrees, within_turn, mean_motion_of, epoch_fraction, epoch_at};
ghost use Rattle.tle.specs.Answer.{from_to, angle_fits, radius_fits, inclination_fits, orbit_fits, visible_byte, name_fits};

use moment::Instant;
use solution::SolvedOrbit;

// A whole turn in 10^-4 degrees, and the longest name.
const TURN: u64 = 3600000;

const LONGEST_NAME: usize = 24;

#[tactic(auto, unfolding(crate::specs::Elements::printed_degrees), using(crate::specs::Elements::full_circle_bits))]
pub fn degrees(x: f64) -> f64
    ensures { result ≡ printed_degrees x }
{
    float::rem_euclid(float::to_degrees(x), 360.0)
}

// 0 degrees in place of what would print 360.0000.
#[tactic(auto, unfolding(crate::specs::Elements::within_turn))]
pub fn within_turn(v: f64) -> f64
    requires { T (within v) }
    ensures { result ≡ within_turn v }
{
    if decimal::fixed::scaled(v, 4, 10000) == TURN {
        return 0.0;
    }
    v
}

// Revolutions a day.
pub fn mean_motion(a: f64) -> f64
    ensures { result ≡ mean_motion_of a }
{
    roots::sqrt(orbit::MU / (a * a * a)) * 86400.0 / 6.283185307179586
}

#[tactic(auto, unfolding(crate::specs::Elements::epoch_fraction), using(crate::specs::Elements::seconds_per_hour_bits, crate::specs::Elements::seconds_per_minute_bits, crate::specs::Elements::nanos_per_second_bits, crate::specs::Elements::seconds_per_day_bits))]
fn day_fraction(secs: u32, nanos: u32) -> f64
    ensures { result ≡ epoch_fraction secs nanos }
{
    let hour = (secs / 3600) as f64;
    let minute = (secs / 60 % 60) as f64;
    let second = (secs % 60) as f64;
    (hour * 3600.0 + minute * 60.0 + second + nanos as f64 / 1e9) / 86400.0
}

// The year, and the day of the year with its fraction.
#[derive(Clone, Copy)]
pub struct Epoch {
    pub year: u32,
    pub day: f64,
}

pub fn epoch_of(t: Instant) -> Epoch
    requires { Within 0 t.secs t.nanos }
    ensures { result ≡ epoch_at t.secs t.nanos }
{
    let s = t.secs - moment::MARCH_1956;
    let date = moment::calendar::date_of(s / 86400);
    let day_of_year = moment::calendar::ordinal(date) as f64;
    Epoch {
        year: date.year,
        day: day_of_year + day_fraction((s % 86400) as u32, t.nanos),
    }
}

fn from_to(lo: f64, hi: f64, v: f64) -> bool
    ensures { result ≡ from_to lo hi v }
{
    !(v < lo || hi < v)
}

fn accepted_angle(x: f64) -> bool
    ensures { result ≡ angle_fits x }
{
    x.is_finite() && float::to_degrees(x).is_finite()
}

fn accepted_radius(a: f64) -> bool
    ensures { result ≡ radius_fits a }
{
    a.is_finite() && from_to(solution::LEAST_A, solution::MOST_A, a)
}

fn accepted_inclination(i: f64) -> bool
    ensures { result ≡ inclination_fits i }
{
    accepted_angle(i) && from_to(0.0, float::PI, i)
}

#[tactic(auto, unfolding(crate::specs::Answer::orbit_fits))]
pub fn accepted_orbit(o: SolvedOrbit) -> bool
    ensures { result ≡ orbit_fits o }
{
    accepted_radius(o.a)
        && accepted_inclination(o.i)
        && accepted_angle(o.raan0)
        && accepted_angle(o.u0)
}

fn visible_byte(c: u8) -> bool
    ensures { result ≡ visible_byte c }
{
    (32..=126).contains(&c)
}

pub fn accepted_name(name: &[u8]) -> bool
    ensures { result ≡ name_fits name.now }
{
    name.len() <= LONGEST_NAME && name.iter().all(|c| visible_byte(*c))
}
