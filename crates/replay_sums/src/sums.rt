// Closest moments, sums of squares, their gradients, and whole searches.
use crate::rooms;

// Room for a set; a larger one is cut.
const PASSES: usize = 20;

const SAMPLES: usize = 64;

// Whether the fields behind the refusal are these floats.
fn found(answer: &[u8], values: &[f64]) -> bool {
    answer_lines::elements_are(answer_lines::from(answer, 1), values)
}

// The fields before the set are: elements, epoch, receiver.
fn pca(
    counts: &[u32],
    times: &[i64],
    freqs: &[f64],
    centers: &[f64],
    fields: &[u8],
    answer: &[u8],
) -> bool {
    let mut out = [0i64; PASSES];
    let given = approach::get_pred_pca_times(
        answer_lines::float(fields, 0),
        answer_lines::float(fields, 1),
        answer_lines::float(fields, 2),
        answer_lines::float(fields, 3),
        answer_lines::moment(answer_lines::from(fields, 4)),
        answer_lines::vec3(answer_lines::from(fields, 6)),
        counts,
        times,
        freqs,
        centers,
        &mut out,
    );
    answer_lines::result_is(answer, given, |()| {
        answer_lines::same(answer_lines::from(answer, 1), counts.len(), &out)
    })
}

// The fields after the set are: receiver, elements, epoch, centre.
fn rss(
    counts: &[u32],
    times: &[i64],
    freqs: &[f64],
    centers: &[f64],
    fields: &[u8],
    answer: &[u8],
) -> bool {
    let sum = approach::compute_rss(
        counts,
        times,
        freqs,
        centers,
        answer_lines::vec3(fields),
        answer_lines::float(fields, 3),
        answer_lines::float(fields, 4),
        answer_lines::moment(answer_lines::from(fields, 7)),
        answer_lines::float(fields, 9),
        answer_lines::float(fields, 5),
        answer_lines::float(fields, 6),
    );
    answer_lines::result_is(answer, sum, |rss| found(answer, &[rss]))
}

fn grad(
    counts: &[u32],
    times: &[i64],
    freqs: &[f64],
    centers: &[f64],
    fields: &[u8],
    answer: &[u8],
) -> bool {
    let gradient = approach::compute_gradient(
        counts,
        times,
        freqs,
        centers,
        answer_lines::vec3(fields),
        answer_lines::float(fields, 3),
        answer_lines::float(fields, 4),
        answer_lines::moment(answer_lines::from(fields, 7)),
        answer_lines::float(fields, 9),
        answer_lines::float(fields, 5),
        answer_lines::float(fields, 6),
    );
    answer_lines::result_is(answer, gradient, |g| {
        found(answer, &[g.grad_a, g.grad_i, g.grad_raan, g.grad_u0])
    })
}

// The fields after the set are: receiver, a, i.
fn search(
    counts: &[u32],
    times: &[i64],
    freqs: &[f64],
    centers: &[f64],
    fields: &[u8],
    answer: &[u8],
) -> bool {
    let mut table = rooms::search();
    let best = probes::search_starts(
        counts,
        times,
        freqs,
        centers,
        answer_lines::vec3(fields),
        answer_lines::float(fields, 3),
        answer_lines::float(fields, 4),
        &mut table,
    );
    answer_lines::result_is(answer, best, |b| found(answer, &[b.raan0, b.u0, b.rss]))
}

// The line asked with its set; `rest` are the fields after it.
fn asked(
    line: &[u8],
    counts: &[u32],
    times: &[i64],
    freqs: &[f64],
    centers: &[f64],
    rest: &[u8],
) -> bool {
    let answer = answer_lines::answer(line);
    if answer_lines::begins_with(line, b"pca ") {
        let fields = answer_lines::asked(line);
        return pca(counts, times, freqs, centers, fields, answer);
    }
    if answer_lines::begins_with(line, b"rss ") {
        return rss(counts, times, freqs, centers, rest, answer);
    }
    if answer_lines::begins_with(line, b"grad ") {
        return grad(counts, times, freqs, centers, rest, answer);
    }
    search(counts, times, freqs, centers, rest, answer)
}

// The same, the set being at the first of these fields.
fn asked_at(line: &[u8], set: &[u8]) -> bool {
    let mut counts = [0u32; PASSES];
    let mut centers = [0.0; PASSES];
    let mut times = [0i64; SAMPLES];
    let mut freqs = [0.0; SAMPLES];
    let n = answer_lines::set(set, &mut counts, &mut centers, &mut times, &mut freqs);
    asked(
        line,
        answer_lines::first(&counts, n.counts),
        answer_lines::first(&times, n.times),
        answer_lines::first(&freqs, n.freqs),
        answer_lines::first(&centers, n.centers),
        answer_lines::after_set(set),
    )
}

pub(crate) fn agrees(line: &[u8]) -> bool {
    if answer_lines::begins_with(line, b"pca ") {
        return asked_at(line, answer_lines::from(answer_lines::asked(line), 9));
    }
    if answer_lines::begins_with(line, b"rss ")
        || answer_lines::begins_with(line, b"grad ")
        || answer_lines::begins_with(line, b"search ")
    {
        return asked_at(line, answer_lines::asked(line));
    }
    false
}
