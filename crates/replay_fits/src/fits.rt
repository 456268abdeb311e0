// Whole fits, each from stored bytes to its element lines.
use crate::rooms;
use determination::Determination;
use fit::Fit;
use moment::Moment;
use refusal::Refusal;

// What every place of a lent output holds before the call.
const UNTOUCHED: f64 = 7.0;

// Whether all have the bits of v.
fn all_are(x: &[f64], v: f64) -> bool {
    let bits = answer_lines::hex::bits(v);
    x.iter().all(|y| answer_lines::hex::bits(*y) == bits)
}

// Whether the list at the first field is the first numbers of x, and the rest is untouched.
fn same_list(fields: &[u8], x: &[f64]) -> bool {
    let n = answer_lines::field(fields, 0).min(x.len() as u64) as usize;
    answer_lines::same(fields, n, x) && all_are(&x[n..], UNTOUCHED)
}

fn same_epoch(fields: &[u8], t: Moment) -> bool {
    let said = answer_lines::moment(fields);
    said.seconds == t.seconds && said.nanos == t.nanos
}

// Whether the fields are: a, i, raan0, u0, epoch, best sum, and as many sums as trials.
fn same_fit(fields: &[u8], f: Fit) -> bool {
    let o = f.orbit;
    answer_lines::elements_are(fields, &[o.a, o.i, o.raan0, o.u0])
        && same_epoch(answer_lines::from(fields, 4), o.epoch)
        && answer_lines::float_is(fields, 6, f.best)
        && answer_lines::field(fields, 7) == f.trials as u64
}

// Whether the fields after the fit's are: the lists that were lent, lines.
fn same_outputs(
    fields: &[u8],
    lent: &[&[f64]; 5],
    lines: Result<usize, Refusal>,
    text: &[u8],
) -> bool {
    let mut rest = fields;
    for x in lent {
        if !same_list(rest, x) {
            return false;
        }
        rest = answer_lines::after_list(rest);
    }
    replay_lines::agreement::same_lines(rest, lines, text)
}

// Whether a refused fit left the lists as they were, and, up to 21, its scratch too; after any other answer that is zeros.
fn left_right(found: Result<Determination, Refusal>, lent: &[&[f64]; 5], scratch: &[f64]) -> bool {
    match found {
        Ok(_) => all_are(scratch, 0.0),
        Err(r) => {
            let left = if r.number() <= 21 { UNTOUCHED } else { 0.0 };
            all_are(scratch, left) && lent.iter().all(|x| all_are(x, UNTOUCHED))
        }
    }
}

// A fit of the stored bytes; the fields after them are: centres, receiver, initial a and i, name.
fn fits(bytes: &[u8], fields: &[u8], answer: &[u8]) -> bool {
    let mut centers = [0.0; 16];
    answer_lines::fill(answer_lines::from(fields, 1), &mut centers);
    let given = answer_lines::first(&centers, answer_lines::field(fields, 0));
    let rest = answer_lines::after_list(fields);
    let mut letters = [0u8; 64];
    let last = answer_lines::from(rest, 5);
    answer_lines::fill(answer_lines::from(last, 1), &mut letters);
    let name = answer_lines::first(&letters, answer_lines::field(last, 0));
    let mut dts = [UNTOUCHED; 20];
    let mut dfs = [UNTOUCHED; 20];
    let mut df1s = [UNTOUCHED; 20];
    let mut df2s = [UNTOUCHED; 20];
    let mut log = [UNTOUCHED; 160];
    let mut scratch = rooms::fit_scratch(UNTOUCHED);
    let mut text = [0u8; 256];
    let found = determination::fit_and_format_stored(
        bytes,
        given,
        answer_lines::vec3(rest),
        answer_lines::float(rest, 3),
        answer_lines::float(rest, 4),
        &mut dts,
        &mut dfs,
        &mut df1s,
        &mut df2s,
        &mut log,
        &mut scratch,
        name,
        &mut text,
    );
    let lent: [&[f64]; 5] = [&log, &dts, &dfs, &df1s, &df2s];
    let after = answer_lines::from(answer, 1);
    left_right(found, &lent, &scratch)
        && answer_lines::result_is(answer, found, |d| {
            same_fit(after, d.fit)
                && same_outputs(answer_lines::from(after, 7), &lent, d.lines, &text)
        })
}

fn determine(line: &[u8]) -> bool {
    let mut room = rooms::stored_set();
    let asked = answer_lines::asked(line);
    answer_lines::fill(answer_lines::from(asked, 1), &mut room);
    let bytes = answer_lines::first(&room, answer_lines::field(asked, 0));
    let rest = answer_lines::from(asked, 1 + (bytes.len() + 7) / 8);
    fits(bytes, rest, answer_lines::answer(line))
}

pub(crate) fn agrees(line: &[u8]) -> bool {
    answer_lines::begins_with(line, b"determine ") && determine(line)
}
