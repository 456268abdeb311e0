// Asks stored answers of element lines again: two lines, and what is read of them. For the program `replay`.
#![tactic(auto)]

ghost use Rattle.text.specs.Text.{bytes};
ghost use Rattle.answer_lines.specs.Lines.{OnlyWords};

use element_lines::Elements;
use refusal::Refusal;

fn same(answer: &[u8], read: Result<Elements, Refusal>) -> bool {
    answer_lines::result_is(answer, read, |e| same_numbers(answer, e))
}

fn same_numbers(answer: &[u8], e: Elements) -> bool {
    let numbers = [
        e.year,
        e.day,
        e.inclination,
        e.node,
        e.mean_anomaly,
        e.mean_motion,
    ];
    answer_lines::elements_are(answer_lines::from(answer, 1), &numbers)
}

// Whether two lines, n1 bytes from the first field of `first` on and n2 of `second`, are read as the answer says.
fn read_same(first: &[u8], n1: u64, second: &[u8], n2: u64, answer: &[u8]) -> bool {
    let mut line1 = [0u8; 256];
    let mut line2 = [0u8; 256];
    answer_lines::fill(first, &mut line1);
    answer_lines::fill(second, &mut line2);
    same(
        answer,
        element_lines::read_element_lines(
            answer_lines::first(&line1, n1),
            answer_lines::first(&line2, n2),
        ),
    )
}

// A line has room of 256 bytes: a longer one agrees with nothing.
fn elements(asked: &[u8], answer: &[u8]) -> bool {
    let n1 = answer_lines::field(asked, 0);
    if 256 < n1 {
        return false;
    }
    let second = answer_lines::from(asked, 1 + (n1 as usize + 7) / 8);
    let n2 = answer_lines::field(second, 0);
    if 256 < n2 {
        return false;
    }
    read_same(
        answer_lines::from(asked, 1),
        n1,
        answer_lines::from(second, 1),
        n2,
        answer,
    )
}

fn checked(line: &[u8]) -> bool {
    if answer_lines::begins_with(line, b"elements ") {
        return elements(answer_lines::asked(line), answer_lines::answer(line));
    }
    false
}

// Whether a line is of this word and has the answer that is given now.
pub fn agrees(line: &[u8]) -> bool
    ensures { OnlyWords (bytes "elements") line.now result }
{
    let words = b"elements";
    if !answer_lines::occurs_in(words, answer_lines::word(line)) {
        return false;
    }
    checked(line)
}
