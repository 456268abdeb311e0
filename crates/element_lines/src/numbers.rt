// The numbers in a line's columns, points and blanks left out. `read_element_lines` has tested that a line has 69 bytes.
ghost use Rattle.std.specs.Prelude.{◌≡◌, ◌+◌, ◌*◌, ◌≤◌, ◌<◌, length};
ghost use Rattle.element_lines.specs.Parts.{with_byte};
ghost use Rattle.tle.specs.Printed.{read_digits, number_in};

use super::columns;

fn with_byte(n: u64, c: u8) -> u64
    requires { n < 1000000000000 }
    ensures { (result ≡ with_byte n c) × (result ≤ n * 10 + 9) }
{
    if columns::is_digit(c) {
        return n * 10 + (c - b'0') as u64;
    }
    n
}

fn digits(l: &[u8]) -> u64
    requires { length l.now ≤ 12 }
    ensures { (result ≡ read_digits 0 l.now) × (result < 1000000000000) }
{
    let mut n = 0;
    for c in l {
        n = with_byte(n, *c);
    }
    n
}

// The number in columns a to b, counted from 1.
pub fn number_in(a: usize, b: usize, line: &[u8]) -> u64
    requires { (0 < a) × (a ≤ b) × (b ≤ length line.now) × (b < a + 12) }
    ensures { (result ≡ number_in a b line.now) × (result < 1000000000000) }
{
    digits(&line[a - 1..b])
}
