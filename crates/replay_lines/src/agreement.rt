// Whether element lines agree with those that the original printed. By document 02 [3] node and mean anomaly are 0.0000 where the original
// has 360.0000; line 2 then has another checksum than the original's, but always the right one. All other bytes are the same. The functions
// that require something are internal: their callers meet it by proof.
ghost use Rattle.std.specs.Prelude.{◌≡◌, ◌≤◌, ◌<◌, length, take};
ghost use Rattle.tle.specs.Printed.{columns_of};
ghost use Rattle.replay_lines.specs.Agreement.{same_columns, is_turn, same_angle, own_sum, same_sum, same_angles, same_rest, line2_agrees, text_agrees, packed_bytes, stored_agrees, lines_agree};

use refusal::Refusal;

// Columns a to b, counted from 1.
fn columns(a: usize, b: usize, line: &[u8]) -> &[u8]
    requires { (0 < a) × (a ≤ b) × (b ≤ length line.now) }
    ensures { result.now ≡ columns_of a b line.now }
{
    &line[a - 1..b]
}

#[tactic(auto, unfolding(crate::specs::Agreement::same_columns))]
fn same_columns(a: usize, b: usize, stored: &[u8], written: &[u8]) -> bool
    requires { (0 < a) × (a ≤ b) × (b ≤ length stored.now) × (b ≤ length written.now) }
    ensures { result ≡ same_columns a b stored.now written.now }
{
    answer_lines::begins_with(columns(a, b, written), columns(a, b, stored))
}

// Whether columns a to b, of an angle, are 360.0000.
#[tactic(auto, unfolding(crate::specs::Agreement::is_turn))]
fn is_turn(a: usize, b: usize, line: &[u8]) -> bool
    requires { (0 < a) × (a ≤ b) × (b ≤ length line.now) }
    ensures { result ≡ is_turn a b line.now }
{
    answer_lines::begins_with(columns(a, b, line), b"360.0000")
}

#[tactic(auto, unfolding(crate::specs::Agreement::same_angle))]
fn same_angle(a: usize, b: usize, stored: &[u8], written: &[u8]) -> bool
    requires { (0 < a) × (a ≤ b) × (b ≤ length stored.now) × (b ≤ length written.now) }
    ensures { result ≡ same_angle a b stored.now written.now }
{
    if is_turn(a, b, stored) {
        return answer_lines::begins_with(columns(a, b, written), b"  0.0000");
    }
    same_columns(a, b, stored, written)
}

fn is_own_sum(line: &[u8]) -> bool
    requires { 69 ≤ length line.now }
    ensures { result ≡ own_sum line.now }
{
    line[68] == tle::tle_checksum(line) as u8 + 48
}

#[tactic(auto, unfolding(crate::specs::Agreement::same_sum))]
fn same_sum(stored: &[u8], written: &[u8]) -> bool
    requires { (69 ≤ length stored.now) × (69 ≤ length written.now) }
    ensures { result ≡ same_sum stored.now written.now }
{
    is_own_sum(written)
        && (is_turn(18, 25, stored)
            || is_turn(44, 51, stored)
            || same_columns(69, 69, stored, written))
}

#[tactic(auto, unfolding(crate::specs::Agreement::same_angles))]
fn same_angles(stored: &[u8], written: &[u8]) -> bool
    requires { (69 ≤ length stored.now) × (69 ≤ length written.now) }
    ensures { result ≡ same_angles stored.now written.now }
{
    same_angle(18, 25, stored, written) && same_angle(44, 51, stored, written)
}

// The columns beside the angles and the checksum, and the line feed.
#[tactic(auto, unfolding(crate::specs::Agreement::same_rest))]
fn same_rest(stored: &[u8], written: &[u8]) -> bool
    requires { (70 ≤ length stored.now) × (70 ≤ length written.now) }
    ensures { result ≡ same_rest stored.now written.now }
{
    same_columns(1, 17, stored, written)
        && same_columns(26, 43, stored, written)
        && same_columns(52, 68, stored, written)
        && same_columns(70, 70, stored, written)
}

#[tactic(auto, unfolding(crate::specs::Agreement::line2_agrees))]
fn same_line_2(stored: &[u8], written: &[u8]) -> bool
    requires { (70 ≤ length stored.now) × (70 ≤ length written.now) }
    ensures { result ≡ line2_agrees stored.now written.now }
{
    same_rest(stored, written) && same_angles(stored, written) && same_sum(stored, written)
}

// Line 2 is the last 70 bytes of a text.
fn same_text(stored: &[u8], written: &[u8]) -> bool
    ensures { result ≡ text_agrees stored.now written.now }
{
    if stored.len() != written.len() {
        return false;
    }
    if written.len() < 70 {
        return false;
    }
    let at = written.len() - 70;
    if !answer_lines::begins_with(written, answer_lines::first(stored, at as u64)) {
        return false;
    }
    same_line_2(
        answer_lines::after(stored, at),
        answer_lines::after(written, at),
    )
}

// The stored text lies eight bytes to a field.
fn same_packed(fields: &[u8], n: usize, text: &[u8]) -> bool
    requires { n ≤ 165 }
    ensures { result ≡ text_agrees (packed_bytes fields.now 0 n) (take n text.now) }
{
    let mut room = [0u8; 165];
    answer_lines::fill(fields, &mut room);
    let stored = answer_lines::first(&room, n as u64);
    same_text(stored, answer_lines::first(text, n as u64))
}

// It stands behind its length, 165 bytes at most.
#[tactic(auto, unfolding(crate::specs::Agreement::stored_agrees))]
fn same_stored(fields: &[u8], n: usize, text: &[u8]) -> bool
    ensures { result ≡ stored_agrees fields.now n text.now }
{
    answer_lines::field(fields, 0) == n as u64
        && n <= 165
        && n <= text.len()
        && same_packed(answer_lines::from(fields, 1), n, text)
}

// Whether the fields are the lines' refusal, or 0 and a text with which theirs agrees.
#[tactic(auto, unfolding(crate::specs::Agreement::lines_agree))]
pub fn same_lines(fields: &[u8], lines: Result<usize, Refusal>, text: &[u8]) -> bool
    ensures { result ≡ lines_agree fields.now lines text.now }
{
    match lines {
        Ok(length) => {
            answer_lines::refused(fields, 0)
                && same_stored(answer_lines::from(fields, 1), length, text)
        }
        Err(refusal) => answer_lines::refused(fields, refusal.number()),
    }
}
