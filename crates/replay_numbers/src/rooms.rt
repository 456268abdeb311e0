// Arrays for what lines hold. Their lengths are promised here, by a law: at each place where an array is lent they would be counted.
ghost use Rattle.std.specs.Prelude.{◌≡◌, length};

// A matrix of a system: 80 rows.
pub(crate) fn matrix() -> [f64; 6400]
    ensures { 6400 ≡ length result }
{
    [0.0; 6400]
}

// The scratch of a solver of 68 rows.
pub(crate) fn elimination() -> [f64; 4692]
    ensures { 4692 ≡ length result }
{
    [0.0; 4692]
}
