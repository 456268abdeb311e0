// Document 01's float helpers, and the wrapping multiply.
ghost use Rattle.std.specs.Prelude.{◌≡◌, ◌*◌, ◌%◌, ◌^◌};
ghost use Rattle.std.specs.Float.Ieee.{to_unsigned, to_signed};
ghost use Rattle.float.specs.Ops.{max_of, min_of, abs_of, signum_of, rem_euclid_of, degrees_of, radians_of, floor_of, round_of};
ghost use Rattle.float.specs.Log.{ln_of};

#[unsafe(no_mangle)]
pub extern "C" fn wisvalom_abs(v: f64) -> f64
    ensures { result ≡ abs_of v }
{
    float::abs(v)
}

#[unsafe(no_mangle)]
pub extern "C" fn wisvalom_max(v: f64, w: f64) -> f64
    ensures { result ≡ max_of v w }
{
    float::max(v, w)
}

#[unsafe(no_mangle)]
pub extern "C" fn wisvalom_min(v: f64, w: f64) -> f64
    ensures { result ≡ min_of v w }
{
    float::min(v, w)
}

#[unsafe(no_mangle)]
pub extern "C" fn wisvalom_floor(v: f64) -> f64
    ensures { result ≡ floor_of v }
{
    float::floor(v)
}

#[unsafe(no_mangle)]
pub extern "C" fn wisvalom_round(v: f64) -> f64
    ensures { result ≡ round_of v }
{
    float::round(v)
}

#[unsafe(no_mangle)]
pub extern "C" fn wisvalom_signum(v: f64) -> f64
    ensures { result ≡ signum_of v }
{
    float::signum(v)
}

#[unsafe(no_mangle)]
pub extern "C" fn wisvalom_rem_euclid(v: f64, d: f64) -> f64
    ensures { result ≡ rem_euclid_of v d }
{
    float::rem_euclid(v, d)
}

#[unsafe(no_mangle)]
pub extern "C" fn wisvalom_to_degrees(v: f64) -> f64
    ensures { result ≡ degrees_of v }
{
    float::to_degrees(v)
}

#[unsafe(no_mangle)]
pub extern "C" fn wisvalom_to_radians(v: f64) -> f64
    ensures { result ≡ radians_of v }
{
    float::to_radians(v)
}

#[unsafe(no_mangle)]
pub extern "C" fn wisvalom_ln(v: f64) -> f64
    ensures { result ≡ ln_of v }
{
    float::log::ln(v)
}

#[unsafe(no_mangle)]
pub extern "C" fn wisvalom_to_u64(v: f64) -> u64
    ensures { result ≡ to_unsigned 64 v }
{
    float::cast::saturating_f64_to_u64(v)
}

#[unsafe(no_mangle)]
pub extern "C" fn wisvalom_to_i64(v: f64) -> i64
    ensures { result ≡ to_signed 63 v }
{
    float::cast::saturating_f64_to_i64(v)
}

#[unsafe(no_mangle)]
pub extern "C" fn wisvalom_wrapping_mul(a: u64, b: u64) -> u64
    ensures { result ≡ (a * b) % 2 ^ 64 }
{
    float::word::wrapping_mul(a, b)
}
