// Reads two element lines from standard input and writes their epoch's year and day, inclination, node, mean anomaly from the node and mean
// motion, each a whole number in units of its last printed place; or - and the number of the refusal. What follows the two lines is not looked at.
#![tactic(auto)]

use std::io;

fn main(rt: HostRuntime) -> io::Result<()> {
    elements_shown::program::run(rt.stdin(), rt.stdout(), rt.stderr())
}
