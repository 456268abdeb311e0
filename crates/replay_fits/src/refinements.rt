// Residuals with their penalised sums, single trials and loops of them. `SECOND` says of which refinement.
use crate::rooms;
use book::Ending;
use probes::Given;
use refusal::Refusal;
use residuals::PARAMS;
use trials::State;

// Room for a set; a larger one is cut.
const PASSES: usize = 16;

const SAMPLES: usize = 64;

// The list at the first field; past its end stand other numbers, of which nothing is used.
fn params_at(fields: &[u8]) -> [f64; PARAMS] {
    let mut out = [0.0; PARAMS];
    answer_lines::fill(answer_lines::from(fields, 1), &mut out);
    out
}

// The fields are: parameters, damping, best sum, kept parameters.
fn state_at(fields: &[u8]) -> State {
    let rest = answer_lines::after_list(fields);
    State {
        params: params_at(fields),
        best_params: params_at(answer_lines::from(rest, 2)),
        damping: answer_lines::float(rest, 0),
        best: answer_lines::float(rest, 1),
        ended: Ending::Running,
    }
}

// Whether the fields are this state, of n parameters.
fn same_state(fields: &[u8], n: usize, s: State) -> bool {
    let rest = answer_lines::after_list(fields);
    answer_lines::same(fields, n, &s.params)
        && answer_lines::elements_are(rest, &[s.damping, s.best])
        && answer_lines::same(answer_lines::from(rest, 2), n, &s.best_params)
}

// So many trials, or fewer where the refinement ends before. Too few residuals end the original's first refinement, but refuse its
// second.
fn trials_of<const SECOND: bool>(x: &Given, tries: u64, from: State) -> Result<State, Refusal> {
    let mut scratch = rooms::derivatives();
    let mut s = from;
    for _ in 0..tries {
        match s.ended {
            Ending::Running => s = probes::trial::<SECOND>(x, s, &mut scratch)?,
            _ => break,
        }
    }
    match s.ended {
        Ending::Short if SECOND => Err(Refusal::FewSamples),
        _ => Ok(s),
    }
}

// A loop of trials; `state` has the fields of the state that it starts from.
fn steps<const SECOND: bool>(x: &Given, tries: u64, state: &[u8], answer: &[u8]) -> bool {
    let n = answer_lines::field(state, 0) as usize;
    let after = trials_of::<SECOND>(x, tries, state_at(state));
    answer_lines::result_is(answer, after, |s| {
        same_state(answer_lines::from(answer, 1), n, s)
    })
}

// Residuals of the parameters that the fields are.
fn residuals<const SECOND: bool>(x: &Given, fields: &[u8], answer: &[u8]) -> bool {
    if SAMPLES < x.times.len() || PASSES < x.counts.len() {
        return false;
    }
    let mut out = rooms::residuals();
    let given = probes::residuals_of::<SECOND>(x, params_at(fields), &mut out);
    let rows = residuals::rows_of::<SECOND>(x.times.len(), x.counts.len());
    let list = answer_lines::from(answer, 1);
    answer_lines::result_is(answer, given, |sum| {
        answer_lines::same(list, rows, &out)
            && answer_lines::elements_are(answer_lines::after_list(list), &[sum])
    })
}

// The line asked with its set, `rest` being the fields after it: the first refinement takes the first two non-empty passes, the second all.
fn asked<'a, const SECOND: bool>(
    line: &[u8],
    counts: &[u32],
    times: &'a [i64],
    freqs: &'a [f64],
    centers: &[f64],
    rest: &[u8],
) -> bool {
    if PASSES < counts.len() || centers.len() != counts.len() {
        return false;
    }
    let kept = arguments::non_empty(counts);
    let all = kept.counts;
    let two = all[0] as u64 + all[1] as u64;
    let (passes, samples) = if SECOND {
        (kept.passes as u64, times.len() as u64)
    } else {
        (2, two)
    };
    let x = Given {
        counts: answer_lines::first(&all, passes),
        times: answer_lines::first(times, samples),
        freqs: answer_lines::first(freqs, samples),
        center_freq: arguments::first_center(counts, centers),
        rec_ecef: answer_lines::vec3(rest),
    };
    let answer = answer_lines::answer(line);
    let more = answer_lines::from(rest, 3);
    if answer_lines::begins_with(line, b"steps") {
        let tries = answer_lines::field(more, 0);
        return steps::<SECOND>(&x, tries, answer_lines::from(more, 1), answer);
    }
    if answer_lines::begins_with(line, b"step") {
        return steps::<SECOND>(&x, 1, more, answer);
    }
    residuals::<SECOND>(&x, more, answer)
}

// The same, the set being read from the line.
fn asked_of<const SECOND: bool>(line: &[u8]) -> bool {
    let mut counts = [0u32; PASSES];
    let mut centers = [0.0; PASSES];
    let mut times = [0i64; SAMPLES];
    let mut freqs = [0.0; SAMPLES];
    let set = answer_lines::asked(line);
    let n = answer_lines::set(set, &mut counts, &mut centers, &mut times, &mut freqs);
    asked::<SECOND>(
        line,
        answer_lines::first(&counts, n.counts),
        answer_lines::first(&times, n.times),
        answer_lines::first(&freqs, n.freqs),
        answer_lines::first(&centers, n.centers),
        answer_lines::after_set(set),
    )
}

pub(crate) fn agrees(line: &[u8]) -> bool {
    if answer_lines::begins_with(line, b"residuals1 ")
        || answer_lines::begins_with(line, b"step1 ")
        || answer_lines::begins_with(line, b"steps1 ")
    {
        return asked_of::<false>(line);
    }
    if answer_lines::begins_with(line, b"residuals2 ")
        || answer_lines::begins_with(line, b"step2 ")
        || answer_lines::begins_with(line, b"steps2 ")
    {
        return asked_of::<true>(line);
    }
    false
}
