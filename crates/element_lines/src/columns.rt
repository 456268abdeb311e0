// What may stand in the columns of the two lines. A table has a character for each column: d a digit, L a digit or a blank in a number's first
// place, l in a later one a digit, or a blank behind a blank, A a letter, a a letter or a blank, s a sign or a blank, and any other itself.
ghost use Rattle.std.specs.Prelude.{◌≡◌, map};
ghost use Rattle.decimal.specs.Read.{is_digit};
ghost use Rattle.tle.specs.Printed as Printed;
ghost use Rattle.element_lines.specs.Parts.{column_class};
ghost use Rattle.element_lines.specs.Columns.{readable1, readable2};

fn is_blank(c: u8) -> bool
    ensures { result ≡ Printed.is_blank c }
{
    c == b' '
}

pub fn is_digit(c: u8) -> bool
    ensures { result ≡ is_digit c }
{
    (b'0'..=b'9').contains(&c)
}

fn is_letter(c: u8) -> bool
    ensures { result ≡ Printed.is_letter c }
{
    (b'A'..=b'Z').contains(&c)
}

fn is_plus_or_minus(c: u8) -> bool
    ensures { result ≡ Printed.is_plus_or_minus c }
{
    c == b'+' || c == b'-'
}

// Whether c may stand in a column of the class, behind the byte `before`.
fn may_stand(class: u8, before: u8, c: u8) -> bool
    ensures { result ≡ Printed.admits (column_class class) before c }
{
    match class {
        b'd' => is_digit(c),
        b'L' => is_digit(c) || is_blank(c),
        b'l' => is_digit(c) || is_blank(before) && is_blank(c),
        b'A' => is_letter(c),
        b'a' => is_letter(c) || is_blank(c),
        b's' => is_plus_or_minus(c) || is_blank(c),
        _ => c == class,
    }
}

// Whether a line has as many bytes as the table columns, and each may stand in its own.
fn matches(table: &[u8], line: &[u8]) -> bool
    ensures { result ≡ Printed.matches_line (map column_class table.now) line.now }
{
    if line.len() != table.len() {
        return false;
    }
    let mut before = 0;
    for (i, &c) in line.iter().enumerate() {
        if !may_stand(table[i], before, c) {
            return false;
        }
        before = c;
    }
    true
}

#[tactic(auto, unfolding(crate::specs::Columns::readable1))]
pub fn is_line_1(line: &[u8]) -> bool
    ensures { result ≡ Printed.matches_line readable1 line.now }
{
    let table = b"1 LllldA dddddaaa ddLld.dddddddd s.dddddddd sdddddsd sdddddsd d Llldd";
    matches(table, line)
}

#[tactic(auto, unfolding(crate::specs::Columns::readable2))]
pub fn is_line_2(line: &[u8]) -> bool
    ensures { result ≡ Printed.matches_line readable2 line.now }
{
    let table = b"2 Lllld Lld.dddd Lld.dddd ddddddd Lld.dddd Lld.dddd Ld.ddddddddLllldd";
    matches(table, line)
}
