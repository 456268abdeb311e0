// The generator: a draw is given the state and writes the next one.
ghost use Rattle.std.specs.Prelude.{◌≡◌};
ghost use Rattle.monna.specs.Rng.{draw_of, gaussian_of};
ghost use Rattle.exports.specs.Draws.{generator};

use monna::rng::SimpleRng;

#[unsafe(no_mangle)]
pub extern "C" fn wisvalom_next_f64(state: u64, next: &mut u64) -> f64
    ensures value { result ≡ (draw_of (generator state)).value }
    ensures next_after { next.new ≡ (draw_of (generator state)).rng.state }
{
    let rng = SimpleRng::new(state);
    let drawn = rng.next_f64();
    let after = drawn.rng;
    *next = after.state;
    drawn.value
}

#[unsafe(no_mangle)]
pub extern "C" fn wisvalom_next_gaussian(state: u64, next: &mut u64) -> f64
    ensures value { result ≡ (gaussian_of (generator state)).value }
    ensures next_after { next.new ≡ (gaussian_of (generator state)).rng.state }
{
    let rng = SimpleRng::new(state);
    let drawn = rng.next_gaussian();
    let after = drawn.rng;
    *next = after.state;
    drawn.value
}
