// What the command does with files and numbers, apart from reading and writing them. The public functions take any input.
#![tactic(auto)]

pub mod gather;
pub mod report;
