// Asks stored answers of fits again: residuals and trials of the refinements, whole fits. For the program `replay`.
#![tactic(auto)]

mod fits;
mod refinements;
mod rooms;

ghost use Rattle.text.specs.Text.{bytes};
ghost use Rattle.answer_lines.specs.Lines.{OnlyWords};

fn checked(line: &[u8]) -> bool {
    refinements::agrees(line) || fits::agrees(line)
}

// Whether a line is of one of these words and has the answer that is given now.
pub fn agrees(line: &[u8]) -> bool
    ensures { OnlyWords (bytes "residuals1 residuals2 step1 step2 steps1 steps2 determine") line.now result }
{
    let words = b"residuals1 residuals2 step1 step2 steps1 steps2 determine";
    if !answer_lines::occurs_in(words, answer_lines::word(line)) {
        return false;
    }
    checked(line)
}
