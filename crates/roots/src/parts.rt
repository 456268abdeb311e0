// The significand and the exponent of a number above zero, from its bit pattern.
ghost use Rattle.std.specs.Prelude.{◌<◌};
ghost use Rattle.roots.specs.Parts.{IsParts};

// 2 ^ 52: the leading one of 53 binary digits, and one in the exponent's field of a bit pattern.
pub(crate) const LEADING: u64 = 1 << 52;

// The bit pattern of infinity. Those of the numbers that are not negative are below it.
pub(crate) const INFINITY: u64 = 0x7ff0000000000000;

// digits * 2 ^ exponent, in units of 2 ^ -1126, with 53 binary digits
#[derive(Clone, Copy)]
pub(crate) struct Parts {
    pub digits: u64,
    pub exponent: u64,
}

fn subnormal_parts(b: u64) -> Parts
    requires { (0 < b) × (b < LEADING) }
    ensures { IsParts b result.digits result.exponent }
{
    let shift = b.leading_zeros() - 11;
    Parts {
        digits: b << shift,
        exponent: u64::from(52 - shift),
    }
}

pub(crate) fn split(b: u64) -> Parts
    requires { (0 < b) × (b < INFINITY) }
    ensures { IsParts b result.digits result.exponent }
{
    match b / LEADING {
        0 => subnormal_parts(b),
        field => Parts {
            digits: b % LEADING + LEADING,
            exponent: field + 51,
        },
    }
}
