// The orbit that a fit gives and the line writer takes.
#![tactic(auto)]

use moment::Moment;

// The radii that a fit gives and the lines take.
pub const LEAST_A: f64 = 6500e3;

pub const MOST_A: f64 = 20000e3;

// A circular orbit at its epoch: radius in metres, inclination, node and argument of latitude in radians.
#[derive(Clone, Copy)]
pub struct SolvedOrbit {
    pub a: f64,
    pub i: f64,
    pub raan0: f64,
    pub u0: f64,
    pub epoch: Moment,
}
