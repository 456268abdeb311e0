// Functions that other languages link: numbers pass as themselves, a slice as its start and length. The names begin
// with the program's, since a name is the whole program's, as in C. Those that can refuse return the number of the
// refusal, 0 if none, and write what they give into `out`.
#![tactic(auto)]

pub mod determinations;
pub mod draws;
pub mod elements;
pub mod files;
pub mod fits;
pub mod floats;
pub mod maps;
pub mod sets;
pub mod sums;
pub mod systems;
pub mod texts;

ghost use Rattle.std.specs.Prelude.{◌≡◌};
ghost use Rattle.frame.specs.Rotation.{place};
ghost use Rattle.roots.specs.Root.{sqrt_of};
ghost use Rattle.roots.specs.Cube.{cbrt_of};
ghost use Rattle.float.specs.Trig.{sin_of, cos_of};
ghost use Rattle.frame.specs.Julian.{datetime_to_jd_of};
ghost use Rattle.orbit.specs.Orbit.{propagate_ecef_of};
ghost use Rattle.orbit.specs.Doppler.{predict_frequency_of, predict_frequency_poly_of};
ghost use Rattle.exports.specs.Answers.{moment, polynomial, state_values};
ghost use Rattle.refusal.specs.Refusals.{status_of, left_by};

use frame::Vec3;
use moment::Moment;
use orbit::doppler::DfPoly;

#[unsafe(no_mangle)]
pub extern "C" fn wisvalom_sqrt(x: f64) -> f64
    ensures { result ≡ sqrt_of x }
{
    roots::sqrt(x)
}

#[unsafe(no_mangle)]
pub extern "C" fn wisvalom_cbrt(x: f64) -> f64
    ensures { result ≡ cbrt_of x }
{
    roots::cube::cbrt(x)
}

#[unsafe(no_mangle)]
pub extern "C" fn wisvalom_sin(v: f64) -> f64
    ensures { result ≡ sin_of v }
{
    float::trig::sin(v)
}

#[unsafe(no_mangle)]
pub extern "C" fn wisvalom_cos(v: f64) -> f64
    ensures { result ≡ cos_of v }
{
    float::trig::cos(v)
}

#[unsafe(no_mangle)]
pub extern "C" fn wisvalom_datetime_to_jd(seconds: i64, nanos: u32, out: &mut f64) -> u32
    ensures value { result ≡ status_of (datetime_to_jd_of (moment seconds nanos)) }
    ensures out_after { out.new ≡ left_by out.old (datetime_to_jd_of (moment seconds nanos)) }
{
    let answer = frame::datetime_to_jd(Moment { seconds, nanos });
    refusal::report(answer, out)
}

#[unsafe(no_mangle)]
pub extern "C" fn wisvalom_predict_frequency(
    a: f64,
    i: f64,
    raan0: f64,
    u0: f64,
    epoch: i64,
    epoch_nanos: u32,
    t_obs: i64,
    t_obs_nanos: u32,
    dt: f64,
    df: f64,
    center_freq: f64,
    x: f64,
    y: f64,
    z: f64,
    out: &mut f64,
) -> u32
    ensures value { result ≡ status_of (predict_frequency_of a i raan0 u0 (moment epoch epoch_nanos) (moment t_obs t_obs_nanos) dt df center_freq (place x y z)) }
    ensures out_after { out.new ≡ left_by out.old (predict_frequency_of a i raan0 u0 (moment epoch epoch_nanos) (moment t_obs t_obs_nanos) dt df center_freq (place x y z)) }
{
    let answer = orbit::doppler::predict_frequency(
        a,
        i,
        raan0,
        u0,
        Moment {
            seconds: epoch,
            nanos: epoch_nanos,
        },
        Moment {
            seconds: t_obs,
            nanos: t_obs_nanos,
        },
        dt,
        df,
        center_freq,
        Vec3 { x, y, z },
    );
    refusal::report(answer, out)
}

#[unsafe(no_mangle)]
pub extern "C" fn wisvalom_predict_frequency_poly(
    a: f64,
    i: f64,
    raan0: f64,
    u0: f64,
    epoch: i64,
    epoch_nanos: u32,
    t_obs: i64,
    t_obs_nanos: u32,
    dt: f64,
    df0: f64,
    df1: f64,
    df2: f64,
    t_ref: i64,
    t_ref_nanos: u32,
    center_freq: f64,
    x: f64,
    y: f64,
    z: f64,
    out: &mut f64,
) -> u32
    ensures value { result ≡ status_of (predict_frequency_poly_of a i raan0 u0 (moment epoch epoch_nanos) (moment t_obs t_obs_nanos) dt (polynomial df0 df1 df2) (moment t_ref t_ref_nanos) center_freq (place x y z)) }
    ensures out_after { out.new ≡ left_by out.old (predict_frequency_poly_of a i raan0 u0 (moment epoch epoch_nanos) (moment t_obs t_obs_nanos) dt (polynomial df0 df1 df2) (moment t_ref t_ref_nanos) center_freq (place x y z)) }
{
    let answer = orbit::doppler::predict_frequency_poly(
        a,
        i,
        raan0,
        u0,
        Moment {
            seconds: epoch,
            nanos: epoch_nanos,
        },
        Moment {
            seconds: t_obs,
            nanos: t_obs_nanos,
        },
        dt,
        DfPoly(df0, df1, df2),
        Moment {
            seconds: t_ref,
            nanos: t_ref_nanos,
        },
        center_freq,
        Vec3 { x, y, z },
    );
    refusal::report(answer, out)
}

// Position, then velocity.
#[unsafe(no_mangle)]
pub extern "C" fn wisvalom_propagate_ecef_at_time(
    a: f64,
    i: f64,
    raan0: f64,
    u0: f64,
    epoch: i64,
    epoch_nanos: u32,
    t_orbit: i64,
    t_orbit_nanos: u32,
    t_rotate: i64,
    t_rotate_nanos: u32,
    out: &mut [f64; 6],
) -> u32
    ensures value { result ≡ status_of (propagate_ecef_of a i raan0 u0 (moment epoch epoch_nanos) (moment t_orbit t_orbit_nanos) (moment t_rotate t_rotate_nanos)) }
    ensures out_after { out.new ≡ left_by out.old (state_values (propagate_ecef_of a i raan0 u0 (moment epoch epoch_nanos) (moment t_orbit t_orbit_nanos) (moment t_rotate t_rotate_nanos))) }
{
    let answer = orbit::propagate_ecef_at_time(
        a,
        i,
        raan0,
        u0,
        Moment {
            seconds: epoch,
            nanos: epoch_nanos,
        },
        Moment {
            seconds: t_orbit,
            nanos: t_orbit_nanos,
        },
        Moment {
            seconds: t_rotate,
            nanos: t_rotate_nanos,
        },
    );
    match answer {
        Ok(s) => {
            *out = [s.x, s.y, s.z, s.vx, s.vy, s.vz];
            0
        }
        Err(r) => r.number(),
    }
}
