// The report's text: each function puts its lines behind what a text holds, as far as there is room.
#![tactic(auto)]

pub mod fitted;
pub mod number;
pub mod refused;
