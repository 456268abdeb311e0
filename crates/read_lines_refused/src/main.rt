// `read_lines` on lines that end in CR LF, of which the second has a wrong checksum.
#![tactic(auto)]

use std::io;

fn main(rt: HostRuntime) -> io::Result<()> {
    elements_shown::program::run(rt.stdin(), rt.stdout(), rt.stderr())
}
