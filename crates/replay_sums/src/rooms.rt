// The array of a search. Its length is promised here, by a law: at the place where it is lent it would be counted.
ghost use Rattle.std.specs.Prelude.{◌≡◌, length};

// The table of a search.
pub(crate) fn search() -> [f64; probes::ROTATIONS]
    ensures { 48032 ≡ length result }
{
    [0.0; probes::ROTATIONS]
}
