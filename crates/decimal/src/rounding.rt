// A quotient to the nearest whole number.
ghost use Rattle.std.specs.Prelude.{◌≡◌, ◌^◌, ◌<◌};
ghost use Rattle.std.specs.Float.Ieee.{nearest};
ghost use Rattle.decimal.specs.Rounding.{order};

use std::cmp::Ordering;

// q, or the next number, by how twice the rest compares with the divisor: a tie goes to the even one.
pub fn rounded(q: u64, rest: Ordering) -> u64
    requires { q < 2 ^ 63 }
    ensures { result ≡ nearest q (order rest) }
{
    match rest {
        Ordering::Less => q,
        Ordering::Equal => q + q % 2,
        Ordering::Greater => q + 1,
    }
}
