// Asks stored answers of numbers again: roots and the other functions of floats, the generator and the digit maps, dates and motion, systems of
// equations. For the program `replay`.
#![tactic(auto)]

mod digits;
mod motion;
mod numbers;
mod rooms;
mod systems;

ghost use Rattle.text.specs.Text.{bytes};
ghost use Rattle.answer_lines.specs.Lines.{OnlyWords};

use refusal::Refusal;

// Whether the answer is this number, or this refusal.
fn same_number(answer: &[u8], a: Result<f64, Refusal>) -> bool {
    answer_lines::result_is(answer, a, |x| answer_lines::float_is(answer, 1, x))
}

fn checked(line: &[u8]) -> bool {
    numbers::agrees(line) || digits::agrees(line) || motion::agrees(line) || systems::agrees(line)
}

// Whether a line is of one of these words and has the answer that is given now.
pub fn agrees(line: &[u8]) -> bool
    ensures { OnlyWords (bytes "sqrt cbrt abs floor round signum to_degrees to_radians sin cos ln to_i64 to_u64 max min rem_euclid power wrapping_mul draw gaussian monna unmonna padic history normal jd teme prop pred poly solve") line.now result }
{
    let words =
        b"sqrt cbrt abs floor round signum to_degrees to_radians sin cos ln to_i64 to_u64 max min rem_euclid power wrapping_mul draw gaussian monna unmonna padic history normal jd teme prop pred poly solve";
    if !answer_lines::occurs_in(words, answer_lines::word(line)) {
        return false;
    }
    checked(line)
}
