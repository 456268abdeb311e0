// The bases of the digit maps.
ghost use Rattle.std.specs.Prelude.{◌≡◌, Some, None, MatchResult};
ghost use Rattle.monna.specs.Digits.{Base as IsBase};
ghost use Rattle.monna.specs.Answers.{base_refusal};

use refusal::Refusal;

// A base of 2 to 7.
#[derive(Clone, Copy, PartialEq, Eq, Debug)]
pub struct Base {
    pub value: u64,
    ghost is_base: { IsBase value },
}

// Refused: 12, p outside 2 to 7.
impl TryFrom<u64> for Base {
    type Error = Refusal;

    ghost try_from_gives = { λ p r. MatchResult r (λ b. (base_refusal p ≡ None) × (b.value ≡ p)) (λ e. base_refusal p ≡ Some e) };

    fn try_from(p: u64) -> Result<Base, Refusal> {
        if (2..=7).contains(&p) {
            Ok(Base { value: p })
        } else {
            Err(Refusal::Limits)
        }
    }
}
