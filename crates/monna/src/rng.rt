// The generator: a linear congruential one, with Knuth's multiplier and increment for MMIX. A draw takes the state and hands
// it back.
ghost use Rattle.std.specs.Prelude.{◌≡◌};
ghost use Rattle.monna.specs.Rng.{draw_of, gaussian_of};

#[derive(Clone, Copy)]
pub struct SimpleRng {
    pub state: u64,
}

// What a draw gives, and the generator after it.
#[derive(Clone, Copy)]
pub struct Draw {
    pub value: f64,
    pub rng: SimpleRng,
}

impl SimpleRng {
    pub const MULTIPLIER: u64 = 6364136223846793005;

    pub const INCREMENT: u64 = 1442695040888963407;

    pub fn new(seed: u64) -> Self
        ensures { result.state ≡ seed }
    {
        Self { state: seed }
    }

    // A number from 0 up to 1, not included.
    pub fn next_f64(self) -> Draw
        ensures { result ≡ draw_of self }
    {
        let product = float::word::wrapping_mul(self.state, Self::MULTIPLIER);
        let state = std::num::wrapping_add_u64(product, Self::INCREMENT);
        let value = std::num::nearest_u64_to_f64(state / 2048) / 9007199254740992.0;
        Draw {
            value,
            rng: SimpleRng { state },
        }
    }

    // A number of the standard normal distribution, by Box and Muller: two draws.
    pub fn next_gaussian(self) -> Draw
        ensures { result ≡ gaussian_of self }
    {
        let first = self.next_f64();
        let u1 = float::max(first.value, 1e-15);
        let second = first.rng.next_f64();
        let r = roots::sqrt(-2.0 * float::log::ln(u1));
        let theta = 2.0 * float::PI * second.value;
        let rng = second.rng;
        Draw {
            value: r * float::trig::cos(theta),
            rng,
        }
    }
}
