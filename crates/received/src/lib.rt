// Frequencies as a receiver hears them, turned into those that the fit predicts: mirrored at the centre.
#![tactic(auto)]

ghost use Rattle.std.specs.Prelude.{◌≡◌, map, length};
ghost use Rattle.pass_set.specs.PassSet.{Sizes};
ghost use Rattle.received.specs.Mirror.{mirrored, mirrored_all};

fn mirror_pass(center: f64, freqs: &mut [f64])
    ensures { freqs.new ≡ map (mirrored center) freqs.old }
{
    for f in freqs.iter_mut() {
        *f = (center + center) - *f;
    }
}

// Each pass at its own centre. It serves the crates above, whose sizes agree by proof.
pub fn mirror(counts: &[u32], centers: &[f64], freqs: &mut [f64])
    requires { Sizes counts.now (length freqs.old) (length freqs.old) (length centers.now) }
    ensures { freqs.new ≡ mirrored_all counts.now centers.now freqs.old }
{
    let mut at = 0usize;
    for (p, &n) in counts.iter().enumerate() {
        let end = at + n as usize;
        mirror_pass(centers[p], &mut freqs[at..end]);
        at = end;
    }
}
