// The Langevin search for the node and the argument of latitude: from each start of a 12 by 12 grid a trajectory of 15 steps, of
// which the least sum is kept. A start's result depends on the arguments and on its number alone.
#![tactic(auto)]

pub mod problem;

ghost use Rattle.std.specs.Prelude.{◌≡◌, ◌+◌, ◌<◌, ◌≤◌, length, take};
ghost use Rattle.search.specs.Sum.{sum_of};
ghost use Rattle.search.specs.Step.{
  size_added,
  variation_of,
  regularized_of,
  sign_of,
  signs_of,
  moved_angle,
  proposal_of,
  prime_of,
  perturbation_of,
  scrambled_of,
  scramble_of,
  kept_of,
  chosen_of,
  step_of,
};
ghost use Rattle.search.specs.Search.{grid_of, opening_of, finished_of, trajectory_of, found_by, better_of, after_draws, search_of};

use monna::base::Base;
use monna::rng::SimpleRng;
use orbit::Elements;
use orbit::doppler::Station;
use problem::Problem;

// What a search holds fixed beside its passes.
#[derive(Clone, Copy)]
pub struct Fixed {
    pub station: Station,
    pub a: f64,
    pub i: f64,
}

// The signs of the sum's differences by the two angles.
#[derive(Clone, Copy)]
pub struct Signs {
    pub raan0: f64,
    pub u0: f64,
}

#[derive(Clone, Copy)]
pub struct Angles {
    pub raan0: f64,
    pub u0: f64,
}

// Two angles and their sum.
#[derive(Clone, Copy)]
pub struct Best {
    pub raan0: f64,
    pub u0: f64,
    pub rss: f64,
}

// A trajectory after some of its steps. history holds a sum for each of them, in its first places.
#[derive(Clone, Copy)]
pub struct Trajectory {
    pub raan0: f64,
    pub u0: f64,
    pub best: Best,
    pub lr: f64,
    pub noise_std: f64,
    pub rng: SimpleRng,
    pub history: [f64; 15],
}

// Where a gradient step with noise leads, and a draw for the scrambling.
#[derive(Clone, Copy)]
pub struct Proposal {
    pub raan0: f64,
    pub u0: f64,
    pub uniform: f64,
    pub rng: SimpleRng,
}

// The best of some starts: which, its angles and their sum.
#[derive(Clone, Copy)]
pub struct Found {
    pub start: usize,
    pub raan0: f64,
    pub u0: f64,
    pub rss: f64,
}

// The orbit of two angles.
fn elements(o: Fixed, at: Angles) -> Elements
    ensures { result ≡ record { a = o.a; i = o.i; raan0 = at.raan0; u0 = at.u0 } }
{
    Elements {
        a: o.a,
        i: o.i,
        raan0: at.raan0,
        u0: at.u0,
    }
}

// The sum of squares at two angles.
fn sum_at(p: &Problem, at: Angles) -> f64
    ensures { result ≡ sum_of p.now at.raan0 at.u0 }
{
    approach::sums::rss(&p.passes, p.fixed.station, elements(p.fixed, at))
}

fn add_size(x: &[f64], i: usize, sum: f64) -> f64
    requires { i < length x.now }
    ensures { result ≡ size_added x.now i sum }
{
    sum + float::abs(monna::inner::difference_at(x, i))
}

// The sum of the sizes of a history's fractional differences.
fn variation(x: &[f64]) -> f64
    ensures { result ≡ variation_of x.now }
{
    let mut sum = 0.0;
    for i in 0..x.len() {
        sum = add_size(x, i, sum);
    }
    sum
}

// rss with a hundredth of the variation of the first n sums.
fn regularized(history: [f64; 15], n: usize, rss: f64) -> f64
    requires { n ≤ 15 }
    ensures { result ≡ regularized_of (take n history) rss }
{
    rss + 0.01 * variation(&history[..n])
}

// The gradient's sign; 0.0 for NaN.
fn sign(gradient: f64) -> f64
    ensures { result ≡ sign_of gradient }
{
    if gradient != gradient {
        0.0
    } else {
        float::signum(gradient)
    }
}

// The reference's gradient has the base sum and the differences by a and i too, of which the search uses nothing.
fn gradient_signs(p: &Problem, at: Angles) -> Signs
    ensures { result ≡ signs_of (sum_of p.now) at.raan0 at.u0 }
{
    let e = elements(p.fixed, at);
    let g = approach::sums::gradient(&p.passes, p.fixed.station, e);
    Signs {
        raan0: sign(g.grad_raan),
        u0: sign(g.grad_u0),
    }
}

// An angle moved against the gradient's sign, with noise, and turned back into one turn.
fn moved(angle: f64, sign: f64, lr: f64, noise_std: f64, gaussian: f64) -> f64
    ensures { result ≡ moved_angle angle sign lr noise_std gaussian }
{
    let step = -lr * sign * 0.2 + noise_std * gaussian * 0.05;
    float::rem_euclid(angle + step, 2.0 * float::PI)
}

fn propose(w: Trajectory, s: Signs) -> Proposal
    ensures { result ≡ proposal_of w s }
{
    let rng = w.rng;
    let first = rng.next_gaussian();
    let second = first.rng.next_gaussian();
    let third = second.rng.next_f64();
    let raan0 = moved(w.raan0, s.raan0, w.lr, w.noise_std, first.value);
    let u0 = moved(w.u0, s.u0, w.lr, w.noise_std, second.value);
    let after = third.rng;
    Proposal {
        raan0,
        u0,
        uniform: third.value,
        rng: after,
    }
}

fn prime(k: usize) -> Base
    ensures { result.value ≡ prime_of k }
{
    match k % 4 {
        0 => Base { value: 2 },
        1 => Base { value: 3 },
        2 => Base { value: 5 },
        _ => Base { value: 7 },
    }
}

// A whole number below p^4.
fn perturbation(uniform: f64, p: Base) -> u64
    ensures { result ≡ perturbation_of uniform p.value }
{
    let q = std::num::nearest_u64_to_f64(p.value);
    float::cast::saturating_f64_to_u64(uniform * (1.0 * q * q * q * q))
}

// The angle with its 16 digits in base p reversed into a whole number, which the perturbation is added to, and back.
fn scrambled(angle: f64, p: Base, perturbation: u64) -> f64
    ensures { result ≡ scrambled_of angle p.value perturbation }
{
    let val = monna::inner::inverse_value(angle / (2.0 * float::PI), p, 16);
    let sum = std::num::wrapping_add_u64(val, perturbation);
    let x = monna::inner::monna_value(sum, p);
    float::rem_euclid(x * 2.0 * float::PI, 2.0 * float::PI)
}

// The angles and their sum where that is below the best, else the best.
fn kept(best: Best, raan0: f64, u0: f64, rss: f64) -> Best
    ensures { result ≡ kept_of best raan0 u0 rss }
{
    if rss < best.rss {
        Best { raan0, u0, rss }
    } else {
        best
    }
}

// Both angles scrambled in step k's base, by one draw.
fn scramble(k: usize, next: Proposal) -> Angles
    ensures { result ≡ scramble_of k next }
{
    let p = prime(k);
    let n = perturbation(next.uniform, p);
    Angles {
        raan0: scrambled(next.raan0, p, n),
        u0: scrambled(next.u0, p, n),
    }
}

// Step k's end: rss is the sum before it, next where the gradient leads, and other the scrambled angles, of sum other_rss.
fn chosen(
    k: usize,
    w: Trajectory,
    rss: f64,
    next: Proposal,
    other: Angles,
    other_rss: f64,
) -> Trajectory
    requires { k < 15 }
    ensures { result ≡ chosen_of k w rss next other other_rss }
{
    let mut history = w.history;
    history[k] = rss;
    let mut temp_history = history;
    temp_history[k] = other_rss;
    let reg_rss_current = regularized(history, k + 1, rss);
    let reg_rss_scrambled = regularized(temp_history, k + 1, other_rss);
    let best = kept(w.best, w.raan0, w.u0, rss);
    let onward = Trajectory {
        raan0: next.raan0,
        u0: next.u0,
        best,
        lr: w.lr * 0.95,
        noise_std: w.noise_std * 0.9,
        rng: next.rng,
        history,
    };
    if reg_rss_scrambled < reg_rss_current {
        Trajectory {
            raan0: other.raan0,
            u0: other.u0,
            history: temp_history,
            ..onward
        }
    } else {
        onward
    }
}

// Step k of a trajectory.
fn step(p: &Problem, k: usize, w: Trajectory) -> Trajectory
    requires { k < 15 }
    ensures { result ≡ step_of (sum_of p.now) k w }
{
    let at = Angles {
        raan0: w.raan0,
        u0: w.u0,
    };
    let rss = sum_at(p, at);
    let s = gradient_signs(p, at);
    let next = propose(w, s);
    let other = scramble(k, next);
    let other_rss = sum_at(p, other);
    chosen(k, w, rss, next, other, other_rss)
}

// A trajectory that has not begun.
fn opening(from: Angles, rng: SimpleRng) -> Trajectory
    ensures { result ≡ opening_of from.raan0 from.u0 rng }
{
    let best = Best {
        raan0: from.raan0,
        u0: from.u0,
        rss: float::MAX,
    };
    let history = [0.0; 15];
    Trajectory {
        raan0: from.raan0,
        u0: from.u0,
        best,
        lr: 0.1,
        noise_std: 0.05,
        rng,
        history,
    }
}

// A trajectory with the sum of where it ended.
fn finished(p: &Problem, w: Trajectory) -> Trajectory
    ensures { result ≡ finished_of (sum_of p.now) w }
{
    let at = Angles {
        raan0: w.raan0,
        u0: w.u0,
    };
    let final_rss = sum_at(p, at);
    let best = kept(w.best, w.raan0, w.u0, final_rss);
    Trajectory { best, ..w }
}

// The whole trajectory from a start.
fn langevin_trajectory(p: &Problem, from: Angles, rng: SimpleRng) -> Trajectory
    ensures { result ≡ trajectory_of (sum_of p.now) from.raan0 from.u0 rng }
{
    let mut w = opening(from, rng);
    for k in 0..15usize {
        w = step(p, k, w);
    }
    finished(p, w)
}

// A grid angle: k times 30 degrees.
fn grid(k: usize) -> f64
    ensures { result ≡ grid_of k }
{
    std::num::nearest_u64_to_f64(k as u64) * float::to_radians(30.0)
}

// Start j's best where its sum is below that of those before it.
fn better(a: Found, j: usize, b: Best) -> Found
    ensures { result ≡ better_of a (found_by j b) }
{
    if b.rss < a.rss {
        Found {
            start: j,
            raan0: b.raan0,
            u0: b.u0,
            rss: b.rss,
        }
    } else {
        a
    }
}

// The generator after n draws.
fn advance(rng: SimpleRng, n: usize) -> SimpleRng
    ensures { result ≡ after_draws n rng }
{
    let mut g = rng;
    for _ in 0..n {
        g = g.next_f64().rng;
    }
    g
}

// The best of `count` starts from start `first` on, in their order; a tie goes to the earlier. Zeros and the largest f64 where
// no sum is below that. A trajectory takes 75 draws, so that its generator is the next start's.
pub fn search(p: &Problem, first: usize, count: usize) -> Found
    requires { first + count ≤ 144 }
    ensures { result ≡ search_of (sum_of p.now) first count }
{
    let mut rng = advance(SimpleRng::new(1337), first * 75);
    let mut best = Found {
        start: 0,
        raan0: 0.0,
        u0: 0.0,
        rss: float::MAX,
    };
    let end = first + count;
    for j in first..end {
        let from = Angles {
            raan0: grid(j / 12),
            u0: grid(j % 12),
        };
        let w = langevin_trajectory(p, from, rng);
        best = better(best, j, w.best);
        rng = w.rng;
    }
    best
}
