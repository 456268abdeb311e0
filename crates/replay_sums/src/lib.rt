// Asks stored answers of sums again: closest moments, sums of squares, their gradients and whole searches. For the program `replay`.
#![tactic(auto)]

mod rooms;
mod sums;

ghost use Rattle.text.specs.Text.{bytes};
ghost use Rattle.answer_lines.specs.Lines.{OnlyWords};

// Whether a line is of one of these words and has the answer that is given now.
pub fn agrees(line: &[u8]) -> bool
    ensures { OnlyWords (bytes "pca rss grad search") line.now result }
{
    let words = b"pca rss grad search";
    if !answer_lines::occurs_in(words, answer_lines::word(line)) {
        return false;
    }
    sums::agrees(line)
}
