// Asks stored answers of element lines that are written, and of their checksums, again. For the program `replay`.
#![tactic(auto)]

pub mod agreement;

ghost use Rattle.text.specs.Text.{bytes};
ghost use Rattle.answer_lines.specs.Lines.{OnlyWords};

use solution::SolvedOrbit;

// The orbit of six fields: elements and epoch.
fn orbit_at(fields: &[u8]) -> SolvedOrbit {
    SolvedOrbit {
        a: answer_lines::float(fields, 0),
        i: answer_lines::float(fields, 1),
        raan0: answer_lines::float(fields, 2),
        u0: answer_lines::float(fields, 3),
        epoch: answer_lines::moment(answer_lines::from(fields, 4)),
    }
}

// A name has room of 40 bytes: a longer one agrees with nothing.
fn lines(asked: &[u8], answer: &[u8]) -> bool {
    let n = answer_lines::field(asked, 0);
    if 40 < n {
        return false;
    }
    let mut name = [0u8; 40];
    answer_lines::fill(answer_lines::from(asked, 1), &mut name);
    let orbit = orbit_at(answer_lines::from(asked, 1 + (n as usize + 7) / 8));
    let mut out = [0u8; 165];
    let r = tle::format_tle_catalog(answer_lines::first(&name, n), orbit, &mut out);
    agreement::same_lines(answer, r, &out)
}

// A line has room of 100 bytes: a longer one agrees with nothing.
fn checksum(asked: &[u8], answer: &[u8]) -> bool {
    let n = answer_lines::field(asked, 0);
    if 100 < n {
        return false;
    }
    let mut line = [0u8; 100];
    answer_lines::fill(answer_lines::from(asked, 1), &mut line);
    answer_lines::field(answer, 0) == tle::tle_checksum(answer_lines::first(&line, n)) as u64
}

fn checked(line: &[u8]) -> bool {
    let asked = answer_lines::asked(line);
    let answer = answer_lines::answer(line);
    if answer_lines::begins_with(line, b"lines ") {
        return lines(asked, answer);
    }
    if answer_lines::begins_with(line, b"checksum ") {
        return checksum(asked, answer);
    }
    false
}

// Whether a line is of one of these words and has the answer that is given now.
pub fn agrees(line: &[u8]) -> bool
    ensures { OnlyWords (bytes "lines checksum") line.now result }
{
    let words = b"lines checksum";
    if !answer_lines::occurs_in(words, answer_lines::word(line)) {
        return false;
    }
    checked(line)
}
