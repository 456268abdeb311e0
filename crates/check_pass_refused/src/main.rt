// The checking program on a file that is refused.
#![tactic(auto)]

use std::io;

fn main(rt: HostRuntime) -> io::Result<()> {
    check_line::program::run(rt.stdin(), rt.stdout(), rt.stderr())
}
