// The program `read_lines`.
use standard_input::Input;
use std::io;
use std::io::{Stderr, Stdin, Stdout};

fn write_line(stdout: Stdout, input: &[u8]) -> io::Result<()> {
    let mut out = [0u8; 128];
    let n = super::show_elements(input, &mut out);
    stdout.write_all(&out[..n])
}

// Reads standard input, its first 256 bytes, and writes its line. An input that cannot be read is told on standard error, and there is no line.
// Fails where the line or that cannot be written.
pub fn run(stdin: Stdin, stdout: Stdout, stderr: Stderr) -> io::Result<()> {
    let mut bytes = [0u8; 256];
    let Input::Bytes(n) = standard_input::read(stdin, &mut bytes) else {
        return stderr.write_all(b"read-lines: standard input cannot be read\n");
    };
    write_line(stdout, &bytes[..n])
}
