// Pass files, and pass sets as stored bytes.
use crate::{rooms, unpacked};
use passes::file;
use passes::file::PassFile;
use refusal::Refusal;
use stored::Loaded;

// Whether the list at the first field is the first n of the times, and the one after it the first n of the frequencies.
fn same_samples(fields: &[u8], n: usize, times: &[i64], freqs: &[f64]) -> bool {
    n <= times.len()
        && answer_lines::same(fields, n, times)
        && answer_lines::same(answer_lines::from(fields, 1 + n), n, freqs)
}

// Whether the fields are: name seen, name, centre, times, frequencies.
fn same_file(bytes: &[u8], r: PassFile, times: &[i64], freqs: &[f64], fields: &[u8]) -> bool {
    if answer_lines::field(fields, 0) != r.name.is_some() as u64 {
        return false;
    }
    let name = file::name(bytes, r);
    let list = answer_lines::from(fields, 1);
    if !answer_lines::same(list, name.len(), name) {
        return false;
    }
    let rest = answer_lines::from(list, 1 + (name.len() + 7) / 8);
    if !answer_lines::float_is(rest, 0, r.center_freq) {
        return false;
    }
    same_samples(answer_lines::from(rest, 1), r.count, times, freqs)
}

fn pass_file(bytes: &[u8], answer: &[u8]) -> bool {
    let mut times = rooms::times();
    let mut freqs = rooms::freqs();
    match file::read_pass_file(bytes, &mut times, &mut freqs) {
        Ok(r) => {
            answer_lines::refused(answer, 0)
                && same_file(bytes, r, &times, &freqs, answer_lines::from(answer, 1))
        }
        Err(refusal) => answer_lines::refused(answer, refusal.number()),
    }
}

// Whether the fields are these: refusal, start and end of the name, name seen, centre, number of samples.
fn fields_are(fields: &[u8], refusal: u32, name: [usize; 3], center_freq: f64, n: usize) -> bool {
    let [start, end, seen] = name;
    answer_lines::refused(fields, refusal)
        && answer_lines::field(fields, 1) == start as u64
        && answer_lines::field(fields, 2) == end as u64
        && answer_lines::field(fields, 3) == seen as u64
        && answer_lines::float_is(fields, 4, center_freq)
        && answer_lines::field(fields, 5) == n as u64
}

// Whether they are those of this answer; behind a refusal there are zeros.
fn same_record(fields: &[u8], answer: Result<PassFile, Refusal>) -> bool {
    match answer {
        Ok(r) => {
            let name = match r.name {
                Some(part) => [part.start, part.end, 1],
                None => [0, 0, 0],
            };
            fields_are(fields, 0, name, r.center_freq, r.count)
        }
        Err(refusal) => fields_are(fields, refusal.number(), [0, 0, 0], 0.0, 0),
    }
}

// The file read into so many places of the arrays. After the record the answer has the first samples' times and frequencies, as many as
// it lists.
fn read_into(
    bytes: &[u8],
    places: u64,
    times: &mut [i64],
    freqs: &mut [f64],
    answer: &[u8],
) -> bool {
    if (times.len().min(freqs.len()) as u64) < places {
        return false;
    }
    let n = places as usize;
    let r = file::read_pass_file(bytes, &mut times[..n], &mut freqs[..n]);
    if !same_record(answer, r) {
        return false;
    }
    let lists = answer_lines::from(answer, 6);
    let listed = answer_lines::first(times, answer_lines::field(lists, 0)).len();
    same_samples(lists, listed, times, freqs)
}

fn pass_rule(bytes: &[u8], places: u64, answer: &[u8]) -> bool {
    let mut times = rooms::times();
    let mut freqs = rooms::freqs();
    read_into(bytes, places, &mut times, &mut freqs, answer)
}

// Whether the fields are: the passes' numbers of samples, times, frequencies.
fn same_set(fields: &[u8], set: Loaded, counts: &[u32], times: &[i64], freqs: &[f64]) -> bool {
    let n = set.passes;
    n <= counts.len()
        && answer_lines::same(fields, n, counts)
        && same_samples(answer_lines::from(fields, 1 + n), set.samples, times, freqs)
}

fn pass_set(bytes: &[u8], answer: &[u8]) -> bool {
    let mut counts = [0u32; 16];
    let mut times = rooms::times();
    let mut freqs = rooms::freqs();
    let given = stored::load(bytes, &mut counts, &mut times, &mut freqs);
    answer_lines::result_is(answer, given, |set| {
        same_set(answer_lines::from(answer, 1), set, &counts, &times, &freqs)
    })
}

// The bytes that begin at field k of those asked, where a line of this word has them.
fn of_bytes(line: &[u8], k: usize) -> bool {
    let mut room = rooms::file();
    let asked = answer_lines::asked(line);
    let answer = answer_lines::answer(line);
    let packed = answer_lines::from(asked, k);
    unpacked::unpack(packed, &mut room);
    let bytes = answer_lines::first(&room, answer_lines::field(packed, 0));
    if answer_lines::begins_with(line, b"file ") {
        return pass_file(bytes, answer);
    }
    if answer_lines::begins_with(line, b"load ") {
        return pass_set(bytes, answer);
    }
    pass_rule(bytes, answer_lines::field(asked, 0), answer)
}

pub(crate) fn agrees(line: &[u8]) -> bool {
    if answer_lines::begins_with(line, b"file ") || answer_lines::begins_with(line, b"load ") {
        return of_bytes(line, 0);
    }
    if answer_lines::begins_with(line, b"pass_rule ") {
        return of_bytes(line, 1);
    }
    false
}
