// A mast's place: latitude and longitude in degrees and height in metres into Earth-fixed metres on WGS 84's ellipsoid, and the line that says
// the three. The public functions take any input.
#![tactic(auto)]

pub mod line;

ghost use Rattle.std.specs.Prelude.{◌≡◌};
ghost use Rattle.geodetic.specs.Ellipsoid as Ellipsoid;

use frame::Vec3;
use refusal::Refusal;

// A number that is NaN or not from lo to hi.
#[tactic(auto, unfolding(crate::specs::Ellipsoid::outside))]
fn is_outside(lo: f64, hi: f64, v: f64) -> bool
    ensures { result ≡ Ellipsoid.outside lo hi v }
{
    v.is_nan() || v < lo || hi < v
}

// Refusal 13's test.
fn is_off_limits(lat_deg: f64, lon_deg: f64, alt_m: f64) -> bool
    ensures { result ≡ Ellipsoid.off_limits lat_deg lon_deg alt_m }
{
    is_outside(-90.0, 90.0, lat_deg)
        || is_outside(-360.0, 360.0, lon_deg)
        || is_outside(-500.0, 10000.0, alt_m)
}

fn eccentricity_squared() -> f64
    ensures { result ≡ Ellipsoid.eccentricity_squared }
{
    let f = 1.0 / 298.257223563;
    2.0 * f - f * f
}

// The radius of curvature in the prime vertical.
fn prime_vertical(e2: f64, sin_lat: f64) -> f64
    ensures { result ≡ Ellipsoid.prime_vertical e2 sin_lat }
{
    6378137.0 / roots::sqrt(1.0 - e2 * sin_lat * sin_lat)
}

fn earth_fixed(lat_deg: f64, lon_deg: f64, alt_m: f64) -> Vec3
    ensures { result ≡ Ellipsoid.earth_fixed lat_deg lon_deg alt_m }
{
    let lat = float::trig::sin_cos(float::to_radians(lat_deg));
    let lon = float::trig::sin_cos(float::to_radians(lon_deg));
    let e2 = eccentricity_squared();
    let n = prime_vertical(e2, lat.sin);
    Vec3 {
        x: (n + alt_m) * lat.cos * lon.cos,
        y: (n + alt_m) * lat.cos * lon.sin,
        z: (n * (1.0 - e2) + alt_m) * lat.sin,
    }
}

// Earth-fixed metres, as the fit takes them, of a latitude, a longitude and a height above the ellipsoid.
#[tactic(auto, unfolding(crate::specs::Ellipsoid::wgs84_to_ecef_of))]
pub fn wgs84_to_ecef(lat_deg: f64, lon_deg: f64, alt_m: f64) -> Result<Vec3, Refusal>
    ensures { result ≡ Ellipsoid.wgs84_to_ecef_of lat_deg lon_deg alt_m }
{
    if is_off_limits(lat_deg, lon_deg, alt_m) {
        return Err(Refusal::PositionRange);
    }
    Ok(earth_fixed(lat_deg, lon_deg, alt_m))
}
