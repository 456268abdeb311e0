// The generator and the digit maps of the search. Every function of this file takes any input; the module `inner` has what
// they are made of, with `requires` that each caller meets by proof.
#![tactic(auto)]

pub mod base;
pub mod inner;
pub mod rng;

ghost use Rattle.std.specs.Prelude.{◌≡◌};
ghost use Rattle.monna.specs.Digits.{normalized_of};
ghost use Rattle.monna.specs.Answers.{monna_map_of, inverse_monna_map_of, p_adic_distance_of, Differs};

use base::Base;
use refusal::Refusal;

// The Monna map of val: its digits in base p, reversed behind the point. Refused: 12, p outside 2 to 7.
pub fn monna_map(val: u64, p: u64) -> Result<f64, Refusal>
    ensures { result ≡ monna_map_of val p }
{
    let base = Base::try_from(p)?;
    Ok(inner::monna_value(val, base))
}

// The whole number whose lowest digits in base p are the first `precision` digits of x behind the point. Refused: 12, p
// outside 2 to 7 or precision above 16.
pub fn inverse_monna_map(x: f64, p: u64, precision: usize) -> Result<u64, Refusal>
    ensures { result ≡ inverse_monna_map_of x p precision }
{
    let base = Base::try_from(p)?;
    if precision > 16 {
        return Err(Refusal::Limits);
    }
    Ok(inner::inverse_value(x, base, precision))
}

// The p-adic distance of a and b. Refused: 12, p outside 2 to 7.
pub fn p_adic_distance(a: u64, b: u64, p: u64) -> Result<f64, Refusal>
    ensures { result ≡ p_adic_distance_of a b p }
{
    let base = Base::try_from(p)?;
    Ok(inner::distance_value(a, b, base))
}

// The fractional differences of x into the first places of out. Refused, out as it was: 12, x has above 64 numbers; 21, out
// is too short.
#[tactic(auto, using(crate::proofs::Endings::too_long), unfolding(crate::specs::Answers::history_refusal))]
pub fn compute_fractional_difference_history(x: &[f64], out: &mut [f64]) -> Result<(), Refusal>
    ensures { Differs x.now out.old out.new result }
{
    let n = x.len();
    if n > 64 {
        return Err(Refusal::Limits);
    }
    if out.len() < n {
        return Err(Refusal::ShortMemory);
    }
    inner::differences(x, &mut out[..n]);
    Ok(())
}

// The coordinates, and for each base of 2, 3, 5 and 7 each coordinate's place in [0, 1].
pub fn map_to_normalized_search_space(coord: [f64; 3]) -> [f64; 15]
    ensures { result ≡ normalized_of coord }
{
    let mut places = [0.0; 15];
    places[..3].copy_from_slice(&coord);
    places[3..6].copy_from_slice(&inner::row(coord, Base { value: 2 }));
    places[6..9].copy_from_slice(&inner::row(coord, Base { value: 3 }));
    places[9..12].copy_from_slice(&inner::row(coord, Base { value: 5 }));
    places[12..].copy_from_slice(&inner::row(coord, Base { value: 7 }));
    places
}
