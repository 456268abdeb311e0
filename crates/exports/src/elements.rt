// The frame's rotation and the element lines.
ghost use Rattle.std.specs.Prelude.{◌≡◌, take};
ghost use Rattle.frame.specs.Rotation.{ecef_of, place};
ghost use Rattle.tle.specs.Lines.{checksum_of};
ghost use Rattle.exports.specs.Elements.{six, orbit, FormatsTo};

use frame::Vec3;
use moment::Moment;
use solution::SolvedOrbit;

// Position, then velocity.
#[unsafe(no_mangle)]
pub extern "C" fn wisvalom_teme_to_ecef(
    jd: f64,
    x: f64,
    y: f64,
    z: f64,
    vx: f64,
    vy: f64,
    vz: f64,
    out: &mut [f64; 6],
)
    ensures { out.new ≡ six (ecef_of jd (place x y z) (place vx vy vz)) }
{
    let s = frame::teme_to_ecef(
        jd,
        Vec3 { x, y, z },
        Vec3 {
            x: vx,
            y: vy,
            z: vz,
        },
    );
    *out = [s.x, s.y, s.z, s.vx, s.vy, s.vz];
}

#[unsafe(no_mangle)]
pub extern "C" fn wisvalom_tle_checksum(line: &[u8]) -> u32
    ensures { result ≡ checksum_of (take 68 line.now) }
{
    tle::tle_checksum(line)
}

// The number of bytes goes to `length`: 0 where the lines are refused.
#[unsafe(no_mangle)]
pub extern "C" fn wisvalom_format_tle_catalog(
    name: &[u8],
    a: f64,
    i: f64,
    raan0: f64,
    u0: f64,
    epoch: i64,
    epoch_nanos: u32,
    out: &mut [u8],
    length: &mut usize,
) -> u32
    ensures { FormatsTo name.now (orbit a i raan0 u0 epoch epoch_nanos) out.old out.new length.new result }
{
    *length = 0;
    let answer = tle::format_tle_catalog(
        name,
        SolvedOrbit {
            a,
            i,
            raan0,
            u0,
            epoch: Moment {
                seconds: epoch,
                nanos: epoch_nanos,
            },
        },
        out,
    );
    refusal::report(answer, length)
}
