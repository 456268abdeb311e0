// Asks stored answers of a mast's place again: by its three numbers, and by a line that says them. For the program `replay`.
#![tactic(auto)]

ghost use Rattle.text.specs.Text.{bytes};
ghost use Rattle.answer_lines.specs.Lines.{OnlyWords};

use frame::Vec3;
use refusal::Refusal;

fn same(answer: &[u8], p: Result<Vec3, Refusal>) -> bool {
    answer_lines::result_is(answer, p, |v| {
        answer_lines::elements_are(answer_lines::from(answer, 1), &[v.x, v.y, v.z])
    })
}

fn wgs84(asked: &[u8], answer: &[u8]) -> bool {
    let v = answer_lines::vec3(asked);
    same(answer, geodetic::wgs84_to_ecef(v.x, v.y, v.z))
}

// The longest stored line has 302 bytes.
fn position(asked: &[u8], answer: &[u8]) -> bool {
    let mut room = [0u8; 512];
    answer_lines::fill(answer_lines::from(asked, 1), &mut room);
    let line = answer_lines::first(&room, answer_lines::field(asked, 0));
    same(answer, geodetic::line::read_position(line))
}

fn checked(line: &[u8]) -> bool {
    let asked = answer_lines::asked(line);
    let answer = answer_lines::answer(line);
    if answer_lines::begins_with(line, b"wgs84 ") {
        return wgs84(asked, answer);
    }
    if answer_lines::begins_with(line, b"position ") {
        return position(asked, answer);
    }
    false
}

// Whether a line is of one of these words and has the answer that is given now.
pub fn agrees(line: &[u8]) -> bool
    ensures { OnlyWords (bytes "wgs84 position") line.now result }
{
    let words = b"wgs84 position";
    if !answer_lines::occurs_in(words, answer_lines::word(line)) {
        return false;
    }
    checked(line)
}
