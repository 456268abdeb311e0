// A mast's place for other languages, a static library beside that of `exports` and by its rules: a call returns the number of the refusal,
// 0 if none, and writes the Earth-fixed metres x, y, z into `out`; refused, it leaves `out` as it was.
#![tactic(auto)]

ghost use Rattle.geodetic.specs.Ellipsoid.{wgs84_to_ecef_of};
ghost use Rattle.geodetic.specs.Line.{read_position_of};
ghost use Rattle.exports_geodetic.specs.Written.{Gives};

use frame::Vec3;
use refusal::Refusal;

// Puts an answer's place into `out`, and gives the number of its refusal, or 0.
fn put(p: Result<Vec3, Refusal>, out: &mut [f64; 3]) -> u32
    ensures { Gives p out.old out.new result }
{
    match p {
        Ok(v) => {
            *out = [v.x, v.y, v.z];
            0
        }
        Err(r) => r.number(),
    }
}

#[unsafe(no_mangle)]
pub extern "C" fn wisvalom_wgs84_to_ecef(
    lat_deg: f64,
    lon_deg: f64,
    alt_m: f64,
    out: &mut [f64; 3],
) -> u32
    ensures { Gives (wgs84_to_ecef_of lat_deg lon_deg alt_m) out.old out.new result }
{
    put(geodetic::wgs84_to_ecef(lat_deg, lon_deg, alt_m), out)
}

#[unsafe(no_mangle)]
pub extern "C" fn wisvalom_read_position(line: &[u8], out: &mut [f64; 3]) -> u32
    ensures { Gives (read_position_of line.now) out.old out.new result }
{
    put(geodetic::line::read_position(line), out)
}
