// Julian date, and the rotation from the inertial to the Earth-fixed frame.
#![tactic(auto)]

ghost use Rattle.std.specs.Prelude.{◌≡◌, ◌<◌, ◌≤◌};
ghost use Rattle.frame.specs.Julian.{julian_of, day_fraction, jd_of, jd_at, datetime_to_jd_of};
ghost use Rattle.frame.specs.Rotation.{gmst_of, theta_of, rotated_of, ecef_of};
ghost use Rattle.float.specs.Trig.{sin_of, cos_of};
ghost use Rattle.moment.specs.Origin.{march1956, march2096};

use float::trig::SinCos;
use moment::calendar::Date;
use moment::{Instant, Moment};
use refusal::Refusal;

#[derive(Clone, Copy)]
pub struct Vec3 {
    pub x: f64,
    pub y: f64,
    pub z: f64,
}

// Position and velocity.
#[derive(Clone, Copy)]
pub struct State {
    pub x: f64,
    pub y: f64,
    pub z: f64,
    pub vx: f64,
    pub vy: f64,
    pub vz: f64,
}

// The Julian date of a day's part, of the year and month counted as Meeus does: January and February
// are months 13 and 14 of the year before.
fn julian(y: f64, m: f64, jd_day: f64) -> f64
    ensures { result ≡ julian_of y m jd_day }
{
    let a = float::floor(y / 100.0);
    let b = 2.0 - a + float::floor(a / 4.0);
    float::floor(365.25 * (y + 4716.0)) + float::floor(30.6001 * (m + 1.0)) + jd_day + b - 1524.5
}

// The last month that counts as one of the year before.
const FEBRUARY: u32 = 2;

fn jd(d: Date, part: f64) -> f64
    ensures { result ≡ jd_of d part }
{
    let year = d.year as f64;
    let month = d.month as f64;
    let jd_day = d.day as f64 + part;
    if d.month <= FEBRUARY {
        julian(year - 1.0, month + 12.0, jd_day)
    } else {
        julian(year, month, jd_day)
    }
}

// The part of a day after so many seconds and nanoseconds.
fn day_part(secs: u32, nanos: u32) -> f64
    ensures { result ≡ day_fraction secs nanos }
{
    let hour = (secs / 3600) as f64;
    let minute = (secs / 60 % 60) as f64;
    let second = (secs % 60) as f64;
    (hour + (minute + (second + nanos as f64 / 1e9) / 60.0) / 60.0) / 24.0
}

// The inner form, for moments from 1956-03-01 to 2096-02-29: callers pass moments that were taken, or near those.
pub fn jd_at(t: Instant) -> f64
    requires { (march1956 ≤ t.secs) × (t.secs < march2096) }
    ensures { result ≡ jd_at t.secs t.nanos }
{
    let s = t.secs - moment::MARCH_1956;
    jd(
        moment::calendar::date_of(s / 86400),
        day_part((s % 86400) as u32, t.nanos),
    )
}

// Julian date of a moment. Refused: 4, it is outside 1957 to 2056.
pub fn datetime_to_jd(dt: Moment) -> Result<f64, Refusal>
    ensures { result ≡ datetime_to_jd_of dt }
{
    let t = Instant::try_from(dt)?;
    Ok(jd_at(t))
}

// Greenwich mean sidereal angle in degrees.
pub fn gmst(jd: f64) -> f64
    ensures { result ≡ gmst_of jd }
{
    let d = jd - 2451545.0;
    let t = d / 36525.0;
    280.46061837 + 360.98564736629 * d + 0.000387933 * t * t - t * t * t / 38710000.0
}

// The same in radians, from 0 on.
pub fn theta(jd: f64) -> f64
    ensures { result ≡ theta_of jd }
{
    float::to_radians(float::rem_euclid(gmst(jd), 360.0))
}

// The state in the frame turned by the angle of this sine and cosine.
pub fn rotated(r: SinCos, s: State) -> State
    ensures { result ≡ rotated_of r.sin r.cos s }
{
    let x = s.x * r.cos + s.y * r.sin;
    let y = -s.x * r.sin + s.y * r.cos;
    State {
        x,
        y,
        z: s.z,
        vx: (s.vx * r.cos + s.vy * r.sin) + 7.2921151467e-5 * y,
        vy: (-s.vx * r.sin + s.vy * r.cos) - 7.2921151467e-5 * x,
        vz: s.vz,
    }
}

// Sine and cosine of the sidereal angle at a Julian date.
pub fn rotation(jd: f64) -> SinCos
    ensures { (result.sin ≡ sin_of (theta_of jd)) × (result.cos ≡ cos_of (theta_of jd)) }
{
    float::trig::sin_cos(theta(jd))
}

// From the inertial to the Earth-fixed frame.
pub fn teme_to_ecef(jd: f64, pos_teme: Vec3, vel_teme: Vec3) -> State
    ensures { result ≡ ecef_of jd pos_teme vel_teme }
{
    rotated(
        rotation(jd),
        State {
            x: pos_teme.x,
            y: pos_teme.y,
            z: pos_teme.z,
            vx: vel_teme.x,
            vy: vel_teme.y,
            vz: vel_teme.z,
        },
    )
}
