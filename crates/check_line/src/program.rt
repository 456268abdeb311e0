// The checking program: `check_pass` and `check_pass_refused` are this on two inputs.
use standard_input::Input;
use std::io;
use std::io::{Stderr, Stdin, Stdout};

fn write_line(stdout: Stdout, bytes: &[u8]) -> io::Result<()> {
    let mut out = [0u8; 32800];
    let n = super::check_line(bytes, &mut out);
    stdout.write_all(&out[..n])
}

// Reads standard input, its first 32 KiB, and writes its line. An input that cannot be read is told on standard error, and there is no line.
// Fails where the line or that cannot be written.
pub fn run(stdin: Stdin, stdout: Stdout, stderr: Stderr) -> io::Result<()> {
    let mut bytes = [0u8; 32768];
    let Input::Bytes(n) = standard_input::read(stdin, &mut bytes) else {
        return stderr.write_all(b"check_pass: standard input cannot be read\n");
    };
    write_line(stdout, &bytes[..n])
}
