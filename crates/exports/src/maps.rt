// The digit maps.
ghost use Rattle.std.specs.Prelude.{◌≡◌};
ghost use Rattle.monna.specs.Digits.{normalized_of};
ghost use Rattle.monna.specs.Answers.{monna_map_of, inverse_monna_map_of, p_adic_distance_of};
ghost use Rattle.refusal.specs.Refusals.{status_of, left_by};
ghost use Rattle.exports.specs.Maps.{DiffersTo};

#[unsafe(no_mangle)]
pub extern "C" fn wisvalom_monna_map(val: u64, p: u64, out: &mut f64) -> u32
    ensures value { result ≡ status_of (monna_map_of val p) }
    ensures out_after { out.new ≡ left_by out.old (monna_map_of val p) }
{
    refusal::report(monna::monna_map(val, p), out)
}

#[unsafe(no_mangle)]
pub extern "C" fn wisvalom_inverse_monna_map(x: f64, p: u64, precision: usize, out: &mut u64) -> u32
    ensures value { result ≡ status_of (inverse_monna_map_of x p precision) }
    ensures out_after { out.new ≡ left_by out.old (inverse_monna_map_of x p precision) }
{
    refusal::report(monna::inverse_monna_map(x, p, precision), out)
}

#[unsafe(no_mangle)]
pub extern "C" fn wisvalom_p_adic_distance(a: u64, b: u64, p: u64, out: &mut f64) -> u32
    ensures value { result ≡ status_of (p_adic_distance_of a b p) }
    ensures out_after { out.new ≡ left_by out.old (p_adic_distance_of a b p) }
{
    refusal::report(monna::p_adic_distance(a, b, p), out)
}

#[unsafe(no_mangle)]
pub extern "C" fn wisvalom_compute_fractional_difference_history(x: &[f64], out: &mut [f64]) -> u32
    ensures { DiffersTo x.now out.old out.new result }
{
    refusal::status(monna::compute_fractional_difference_history(x, out))
}

#[unsafe(no_mangle)]
pub extern "C" fn wisvalom_map_to_normalized_search_space(coord: &[f64; 3], out: &mut [f64; 15])
    ensures { out.new ≡ normalized_of coord.now }
{
    *out = monna::map_to_normalized_search_space(*coord);
}
