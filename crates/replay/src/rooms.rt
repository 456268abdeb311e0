// Arrays for what lines hold. Their lengths are promised here, by a law: at each place where an array is lent they would be counted.
ghost use Rattle.std.specs.Prelude.{◌≡◌, length};

// A whole list of stored answers.
pub(crate) fn list() -> [u8; 4194304]
    ensures { 4194304 ≡ length result }
{
    [0; 4194304]
}

// A pass file, or a stored pass set.
pub(crate) fn file() -> [u8; 131072]
    ensures { 131072 ≡ length result }
{
    [0; 131072]
}

// The times of as many samples as there may be.
pub(crate) fn times() -> [i64; 4096]
    ensures { 4096 ≡ length result }
{
    [0; 4096]
}

// Their frequencies.
pub(crate) fn freqs() -> [f64; 4096]
    ensures { 4096 ≡ length result }
{
    [0.0; 4096]
}
