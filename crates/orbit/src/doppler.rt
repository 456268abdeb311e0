// The frequency received from a satellite on the orbit.
ghost use Rattle.std.specs.Prelude.{◌≡◌, ◌<◌, ◌≤◌};
ghost use Rattle.moment.specs.Time.{nanos_of, Sound};
ghost use Rattle.moment.specs.Range.{Within};
ghost use Rattle.frame.specs.Rotation.{turn_at};
ghost use Rattle.orbit.specs.Doppler.{dot_of, potential_of, received_of, drift_of, sight_of, predicted_at, predicted_of, bias_of, predict_frequency_of, predict_frequency_poly_of};

use crate::{Elements, MU, Rates};
use float::trig::SinCos;
use frame::{State, Vec3};
use moment::time::{MICROSECOND, NANOSECOND};
use moment::{Instant, Moment};
use refusal::Refusal;

// The speed of light, m/s.
const C: f64 = 299792458.0;

// A bias and its first two derivatives.
#[derive(Clone, Copy)]
pub struct DfPoly(pub f64, pub f64, pub f64);

// What all predictions of a fit share: the epoch of the elements, the centre frequency in Hz, and the receiver's place, Earth-fixed in m.
#[derive(Clone, Copy)]
pub struct Station {
    pub epoch: Instant,
    pub center_freq: f64,
    pub rec_ecef: Vec3,
}

// An orbit seen from a station, with what is worked out once for all its predictions: the orbit's rates, and the potential at the
// receiver.
#[derive(Clone, Copy)]
pub struct Sight {
    pub station: Station,
    pub e: Elements,
    pub k: Rates,
    pub u_rec: f64,
}

pub fn dot(ax: f64, ay: f64, az: f64, bx: f64, by: f64, bz: f64) -> f64
    ensures { result ≡ dot_of ax ay az bx by bz }
{
    ax * bx + ay * by + az * bz
}

// The Earth's potential at a place.
pub fn potential(p: Vec3) -> f64
    ensures { result ≡ potential_of p.x p.y p.z }
{
    -MU / roots::sqrt(dot(p.x, p.y, p.z, p.x, p.y, p.z))
}

// The relativistic correction of a moment, in nanoseconds.
fn drift(s: State) -> f64
    ensures { result ≡ drift_of s }
{
    -2.0 * dot(s.x, s.y, s.z, s.vx, s.vy, s.vz) / (C * C) * 1e9
}

// The frequency from the satellite's state: `near` is what is added to the centre within a metre,
// `bias` what is added to the shift elsewhere, and u_rec the potential at the receiver.
pub fn received(s: State, rec: Vec3, u_rec: f64, near: f64, bias: f64, center_freq: f64) -> f64
    ensures { result ≡ received_of s rec u_rec near bias center_freq }
{
    let dx = s.x - rec.x;
    let dy = s.y - rec.y;
    let dz = s.z - rec.z;
    let dist = roots::sqrt(dot(dx, dy, dz, dx, dy, dz));
    if dist < 1.0 {
        return center_freq + near;
    }
    let v_sat_sq = dot(s.vx, s.vy, s.vz, s.vx, s.vy, s.vz);
    let u_sat = potential(Vec3 {
        x: s.x,
        y: s.y,
        z: s.z,
    });
    let v_dot_n = dot(s.vx, s.vy, s.vz, dx, dy, dz) / dist;
    let gamma_inv = roots::sqrt(1.0 - v_sat_sq / (C * C));
    let denominator = 1.0 - v_dot_n / C;
    let potential_term = 1.0 + (u_sat - u_rec) / (C * C);
    let f_obs = center_freq * (gamma_inv / denominator) * potential_term;
    f_obs - center_freq + bias
}

pub fn sight_of(g: Station, e: Elements) -> Sight
    ensures { result ≡ sight_of g e }
{
    let k = crate::rates_of(e);
    let u_rec = potential(g.rec_ecef);
    Sight {
        station: g,
        e,
        k,
        u_rec,
    }
}

// The inner prediction: what depends on the orbit and the station alone, and the rotation at t_obs, are worked out before.
pub fn predict(
    v: Sight,
    t_obs: Instant,
    turn: SinCos,
    dt: f64,
    near: f64,
    bias: f64,
) -> Result<f64, Refusal>
    requires { Sound v.station.epoch.secs v.station.epoch.nanos × Sound t_obs.secs t_obs.nanos }
    ensures { result ≡ predicted_at v (nanos_of t_obs.secs t_obs.nanos) turn dt near bias }
{
    let epoch = v.station.epoch;
    let t_adj = moment::time::moved::<MICROSECOND>(t_obs, dt * 1000000.0);
    if moment::time::over(t_adj) {
        return Err(Refusal::FarMoment);
    }
    let first = crate::propagate(v.e, v.k, moment::time::tau(t_adj, epoch), turn);
    let t_corr = moment::time::moved::<NANOSECOND>(t_adj, drift(first));
    if moment::time::over(t_corr) {
        return Err(Refusal::FarMoment);
    }
    let s = crate::propagate(v.e, v.k, moment::time::tau(t_corr, epoch), turn);
    Ok(received(
        s,
        v.station.rec_ecef,
        v.u_rec,
        near,
        bias,
        v.station.center_freq,
    ))
}

// A prediction with nothing worked out before.
fn predict_at(
    g: Station,
    e: Elements,
    t_obs: Instant,
    dt: f64,
    near: f64,
    bias: f64,
) -> Result<f64, Refusal>
    requires { Within 0 g.epoch.secs g.epoch.nanos × Within 0 t_obs.secs t_obs.nanos }
    ensures { result ≡ predicted_of g e (nanos_of t_obs.secs t_obs.nanos) (turn_at t_obs.secs t_obs.nanos) dt near bias }
{
    let turn = frame::rotation(frame::jd_at(t_obs));
    let v = sight_of(g, e);
    predict(v, t_obs, turn, dt, near, bias)
}

pub fn predict_frequency(
    a: f64,
    i: f64,
    raan0: f64,
    u0: f64,
    epoch: Moment,
    t_obs: Moment,
    dt: f64,
    df: f64,
    center_freq: f64,
    rec_ecef: Vec3,
) -> Result<f64, Refusal>
    ensures { result ≡ predict_frequency_of a i raan0 u0 epoch t_obs dt df center_freq rec_ecef }
{
    let from = Instant::try_from(epoch)?;
    let t = Instant::try_from(t_obs)?;
    let g = Station {
        epoch: from,
        center_freq,
        rec_ecef,
    };
    predict_at(g, Elements { a, i, raan0, u0 }, t, dt, df, df)
}

// The bias at so many seconds.
pub fn bias_at(df_poly: DfPoly, tau: f64) -> f64
    ensures { result ≡ bias_of df_poly tau }
{
    df_poly.0 + df_poly.1 * tau + df_poly.2 * tau * tau
}

pub fn predict_frequency_poly(
    a: f64,
    i: f64,
    raan0: f64,
    u0: f64,
    epoch: Moment,
    t_obs: Moment,
    dt: f64,
    df_poly: DfPoly,
    t_ref: Moment,
    center_freq: f64,
    rec_ecef: Vec3,
) -> Result<f64, Refusal>
    ensures { result ≡ predict_frequency_poly_of a i raan0 u0 epoch t_obs dt df_poly t_ref center_freq rec_ecef }
{
    let from = Instant::try_from(epoch)?;
    let t = Instant::try_from(t_obs)?;
    let since = Instant::try_from(t_ref)?;
    let near = df_poly.0;
    let bias = bias_at(df_poly, moment::time::tau_millis(t, since));
    let g = Station {
        epoch: from,
        center_freq,
        rec_ecef,
    };
    predict_at(g, Elements { a, i, raan0, u0 }, t, dt, near, bias)
}
