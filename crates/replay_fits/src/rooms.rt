// Arrays for what lines hold. Their lengths are promised here, by a law: at each place where an array is lent they would be counted.
ghost use Rattle.std.specs.Prelude.{◌≡◌, length};

// A stored pass set of the sizes that are stored.
pub(crate) fn stored_set() -> [u8; 16384]
    ensures { 16384 ≡ length result }
{
    [0; 16384]
}

// The residuals of a set, with penalties.
pub(crate) fn residuals() -> [f64; residuals::ROWS]
    ensures { 4144 ≡ length result }
{
    [0.0; residuals::ROWS]
}

// The table of a refinement.
pub(crate) fn derivatives() -> [f64; probes::TABLE]
    ensures { 281792 ≡ length result }
{
    [0.0; probes::TABLE]
}

// The scratch of a fit of the sizes that are stored, every place with the same number.
pub(crate) fn fit_scratch(v: f64) -> [f64; 40000]
    ensures { 40000 ≡ length result }
{
    [v; 40000]
}
