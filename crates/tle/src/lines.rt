// The columns of the two lines. `line_1`, `line_2` and `put_line` serve `format_tle_catalog`, whose proofs show that each number fits
// its columns and that the output has room.
ghost use Rattle.std.specs.Prelude.{◌≡◌, [], ◌∷◌, ◌++◌, ◌+◌, ◌≤◌, ◌<◌, T, length};
ghost use Rattle.std.proofs.lemmas.List.Edits.{sets};
ghost use Rattle.decimal.specs.Fixed.{printable, digit_at};
ghost use Rattle.tle.specs.Lines.{body1, body2, closed};

fn digit(n: u32) -> u8
    ensures { result ≡ digit_at n 0 }
{
    (n % 10) as u8 + 48
}

pub fn line_1(year: u32, day: f64) -> [u8; 69]
    requires { T (printable day 8 12 20 69) }
    ensures { result ≡ closed (body1 year day) }
{
    let mut line = *b"1 99999U 26999A   yyddd.dddddddd  .00000000  00000-0  00000-0 0  999c";
    line[18] = digit(year / 10);
    line[19] = digit(year);
    decimal::fixed::put_fixed(day, 8, b'0', &mut line, 20, 12);
    line[68] = crate::tle_checksum(&line) as u8 + 48;
    line
}

pub fn line_2(i: f64, raan: f64, u: f64, n: f64) -> [u8; 69]
    requires { T (printable i 4 8 8 69) × T (printable raan 4 8 17 69) × T (printable u 4 8 43 69) × T (printable n 8 11 52 69) }
    ensures { result ≡ closed (body2 i raan u n) }
{
    let mut line = *b"2 99999 iii.iiii nnn.nnnn 0000000   0.0000 mmm.mmmm nn.nnnnnnnn00000c";
    decimal::fixed::put_fixed(i, 4, b' ', &mut line, 8, 8);
    decimal::fixed::put_fixed(raan, 4, b' ', &mut line, 17, 8);
    decimal::fixed::put_fixed(u, 4, b' ', &mut line, 43, 8);
    decimal::fixed::put_fixed(n, 8, b' ', &mut line, 52, 11);
    line[68] = crate::tle_checksum(&line) as u8 + 48;
    line
}

// Copies `from` into `to` from place `at` on, byte by byte: the library's copy of a slice comes out as a call of C's `memmove`,
// a name that whoever links the archives would have to bring.
fn copy_to(from: &[u8], to: &mut [u8], at: usize)
    requires { at + length from.now ≤ length to.old }
    ensures { to.new ≡ sets to.old at from.now }
{
    for (i, &byte) in from.iter().enumerate() {
        to[at + i] = byte;
    }
}

// The same, and a line feed after it.
pub fn put_line(line: &[u8], out: &mut [u8], at: usize)
    requires { at + length line.now < length out.old }
    ensures { out.new ≡ sets out.old at (line.now ++ 10 ∷ []) }
{
    copy_to(line, out, at);
    out[at + line.len()] = b'\n';
}
