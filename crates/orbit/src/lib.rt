// A circular orbit with drifting node: position, velocity and the received frequency.
#![tactic(auto)]

pub mod doppler;

ghost use Rattle.std.specs.Prelude.{◌≡◌, ◌<◌, ◌≤◌};
ghost use Rattle.orbit.specs.Orbit.{rates_of, plane_of, propagated_of, propagate_ecef_of};

use float::trig::SinCos;
use frame::State;
use moment::{Instant, Moment};
use refusal::Refusal;

// The Earth's gravity in m^3/s^2, its second zonal harmonic, and its radius in m.
pub const MU: f64 = 3.986004418e14;

const J2: f64 = 1.0826263e-3;

const RE: f64 = 6378137.0;

#[derive(Clone, Copy)]
pub struct Elements {
    pub a: f64,
    pub i: f64,
    pub raan0: f64,
    pub u0: f64,
}

// What depends on a and i alone: mean motion, speed, node rate, and sine and cosine of i.
#[derive(Clone, Copy)]
pub struct Rates {
    pub n: f64,
    pub v: f64,
    pub d_raan: f64,
    pub sin_i: f64,
    pub cos_i: f64,
}

pub fn rates_of(e: Elements) -> Rates
    ensures { result ≡ rates_of e }
{
    let n = roots::sqrt(MU / (e.a * e.a * e.a));
    let v = roots::sqrt(MU / e.a);
    let s = float::trig::sin_cos(e.i);
    let q = RE / e.a;
    Rates {
        n,
        v,
        d_raan: -1.5 * J2 * (q * q) * n * s.cos,
        sin_i: s.sin,
        cos_i: s.cos,
    }
}

// From the orbital plane to the inertial frame, by the sines and cosines of u and of the node.
pub fn plane(e: Elements, k: Rates, u: SinCos, o: SinCos) -> State
    ensures { result ≡ plane_of e k u o }
{
    let x_plane = e.a * u.cos;
    let y_plane = e.a * u.sin;
    let vx_plane = -k.v * u.sin;
    let vy_plane = k.v * u.cos;
    State {
        x: x_plane * o.cos - y_plane * k.cos_i * o.sin,
        y: x_plane * o.sin + y_plane * k.cos_i * o.cos,
        z: y_plane * k.sin_i,
        vx: vx_plane * o.cos - vy_plane * k.cos_i * o.sin,
        vy: vx_plane * o.sin + vy_plane * k.cos_i * o.cos,
        vz: vy_plane * k.sin_i,
    }
}

// tau seconds after the epoch, in the frame turned by the angle of `turn`.
pub fn propagate(e: Elements, k: Rates, tau: f64, turn: SinCos) -> State
    ensures { result ≡ propagated_of e k tau turn }
{
    let p = float::trig::sin_cos_pair(e.u0 + k.n * tau, e.raan0 + k.d_raan * tau);
    let u = p.u;
    let o = p.v;
    frame::rotated(turn, plane(e, k, u, o))
}

// The Earth-fixed state at t_orbit, in the frame turned as at t_rotate. Refused: 4, a moment is outside 1957 to 2056.
pub fn propagate_ecef_at_time(
    a: f64,
    i: f64,
    raan0: f64,
    u0: f64,
    epoch: Moment,
    t_orbit: Moment,
    t_rotate: Moment,
) -> Result<State, Refusal>
    ensures { result ≡ propagate_ecef_of a i raan0 u0 epoch t_orbit t_rotate }
{
    let from = Instant::try_from(epoch)?;
    let t = Instant::try_from(t_orbit)?;
    let rotate = Instant::try_from(t_rotate)?;
    let e = Elements { a, i, raan0, u0 };
    let turn = frame::rotation(frame::jd_at(rotate));
    Ok(propagate(e, rates_of(e), moment::time::tau(t, from), turn))
}
