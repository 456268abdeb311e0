// Which lines of a pass file were skipped, and which was refused: for messages.
#![tactic(auto)]

ghost use Rattle.std.specs.Prelude.{◌≡◌, ◌≤◌, eqb, length};
ghost use Rattle.passes.specs.Text.{trim, lines};
ghost use Rattle.passes.specs.Line.{line_of};
ghost use Rattle.survey.specs.Survey.{class_of, first_line, counting, open_tally, surveyed, Small};

use passes::line::Line;
use passes::{line, pieces};

// What became of a line: it is empty, it was skipped, it says something, or it was refused.
#[derive(Clone, Copy)]
enum Class {
    Blank,
    Unread,
    Used,
    Refused,
}

// How many lines were read, how many of them said something, how many were skipped without being empty, the first of these, and the
// line that was refused; lines count from 1.
#[derive(Clone, Copy, PartialEq, Eq, Debug)]
pub struct Tally {
    pub lines: usize,
    pub used: usize,
    pub skipped: usize,
    pub first: Option<usize>,
    pub refused: Option<usize>,
}

fn class_of(l: &[u8]) -> Class
    ensures { result ≡ class_of (line_of l.now) (eqb (length (trim l.now)) 0) }
{
    let t = pieces::trim(l);
    match line::read_line(l) {
        Err(_) => Class::Refused,
        Ok(Line::Skipped) => {
            if t.start == t.end {
                Class::Blank
            } else {
                Class::Unread
            }
        }
        Ok(Line::Name(_) | Line::Center(_) | Line::Sample(_, _)) => Class::Used,
    }
}

// The first of two lines, of which there may be no earlier one.
fn first_of(first: Option<usize>, line: usize) -> Option<usize>
    ensures { result ≡ first_line first line }
{
    first.or(Some(line))
}

// One line more, of this class.
#[tactic(auto, unfolding(crate::specs::Survey::counting))]
fn counted(s: Tally, class: Class) -> Tally
    requires { Small s }
    ensures { result ≡ counting s class }
{
    let lines = s.lines + 1;
    match class {
        Class::Blank => Tally { lines, ..s },
        Class::Unread => Tally {
            lines,
            skipped: s.skipped + 1,
            first: first_of(s.first, lines),
            ..s
        },
        Class::Used => Tally {
            lines,
            used: s.used + 1,
            ..s
        },
        Class::Refused => Tally {
            lines,
            refused: Some(lines),
            ..s
        },
    }
}

// All lines, up to the first that is refused.
pub fn survey(file: &[u8]) -> Tally
    ensures { result ≡ surveyed open_tally (lines 0 file.now) }
{
    let mut s = Tally {
        lines: 0,
        used: 0,
        skipped: 0,
        first: None,
        refused: None,
    };
    let mut at = 0;
    while at < file.len() {
        let c = pieces::line(&file[at..]);
        let e = at + c.size;
        let next = c.next;
        s = counted(s, class_of(&file[at..e]));
        if s.refused.is_some() {
            return s;
        }
        at += next;
    }
    s
}
