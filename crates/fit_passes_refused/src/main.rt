// See `fit_command`.
#![tactic(auto)]

use std::io;

fn main(rt: HostRuntime) -> io::Result<()> {
    fit_command::run(&rt, rt.stdout(), rt.stderr())
}
