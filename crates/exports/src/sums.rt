// Closest moments and sums of squares, over a pass set in flat arrays.
ghost use Rattle.std.specs.Prelude.{◌≡◌};
ghost use Rattle.frame.specs.Rotation.{place};
ghost use Rattle.refusal.specs.Refusals.{status_of, left_by};
ghost use Rattle.approach.specs.Answers.{compute_rss_of, compute_gradient_of};
ghost use Rattle.exports.specs.Answers.{moment};
ghost use Rattle.exports.specs.Sums.{FindsPcasTo, gradient_values};

use frame::Vec3;
use moment::Moment;

#[unsafe(no_mangle)]
pub extern "C" fn wisvalom_get_pred_pca_times(
    a: f64,
    i: f64,
    raan: f64,
    u0: f64,
    epoch: i64,
    epoch_nanos: u32,
    x: f64,
    y: f64,
    z: f64,
    counts: &[u32],
    times: &[i64],
    freqs: &[f64],
    centers: &[f64],
    out: &mut [i64],
) -> u32
    ensures { FindsPcasTo a i raan u0 (moment epoch epoch_nanos) (place x y z) counts.now times.now freqs.now centers.now out.old out.new result }
{
    refusal::status(approach::get_pred_pca_times(
        a,
        i,
        raan,
        u0,
        Moment {
            seconds: epoch,
            nanos: epoch_nanos,
        },
        Vec3 { x, y, z },
        counts,
        times,
        freqs,
        centers,
        out,
    ))
}

#[unsafe(no_mangle)]
pub extern "C" fn wisvalom_compute_rss(
    counts: &[u32],
    times: &[i64],
    freqs: &[f64],
    centers: &[f64],
    x: f64,
    y: f64,
    z: f64,
    a: f64,
    i: f64,
    epoch: i64,
    epoch_nanos: u32,
    center_freq: f64,
    raan0: f64,
    u0: f64,
    out: &mut f64,
) -> u32
    ensures value { result ≡ status_of (compute_rss_of (moment epoch epoch_nanos) center_freq (place x y z) (record { a = a; i = i; raan0 = raan0; u0 = u0 }) counts.now times.now freqs.now centers.now) }
    ensures out_after { out.new ≡ left_by out.old (compute_rss_of (moment epoch epoch_nanos) center_freq (place x y z) (record { a = a; i = i; raan0 = raan0; u0 = u0 }) counts.now times.now freqs.now centers.now) }
{
    let answer = approach::compute_rss(
        counts,
        times,
        freqs,
        centers,
        Vec3 { x, y, z },
        a,
        i,
        Moment {
            seconds: epoch,
            nanos: epoch_nanos,
        },
        center_freq,
        raan0,
        u0,
    );
    refusal::report(answer, out)
}

// By a, i, raan0 and u0.
#[unsafe(no_mangle)]
pub extern "C" fn wisvalom_compute_gradient(
    counts: &[u32],
    times: &[i64],
    freqs: &[f64],
    centers: &[f64],
    x: f64,
    y: f64,
    z: f64,
    a: f64,
    i: f64,
    epoch: i64,
    epoch_nanos: u32,
    center_freq: f64,
    raan0: f64,
    u0: f64,
    out: &mut [f64; 4],
) -> u32
    ensures value { result ≡ status_of (compute_gradient_of (moment epoch epoch_nanos) center_freq (place x y z) (record { a = a; i = i; raan0 = raan0; u0 = u0 }) counts.now times.now freqs.now centers.now) }
    ensures out_after { out.new ≡ gradient_values out.old (compute_gradient_of (moment epoch epoch_nanos) center_freq (place x y z) (record { a = a; i = i; raan0 = raan0; u0 = u0 }) counts.now times.now freqs.now centers.now) }
{
    let answer = approach::compute_gradient(
        counts,
        times,
        freqs,
        centers,
        Vec3 { x, y, z },
        a,
        i,
        Moment {
            seconds: epoch,
            nanos: epoch_nanos,
        },
        center_freq,
        raan0,
        u0,
    );
    match answer {
        Ok(g) => {
            *out = [g.grad_a, g.grad_i, g.grad_raan, g.grad_u0];
            0
        }
        Err(r) => r.number(),
    }
}
