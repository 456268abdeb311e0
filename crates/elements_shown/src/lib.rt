// What the program `read_lines` prints of an input: its first two lines are read as element lines.
#![tactic(auto)]

pub mod program;

ghost use Rattle.std.specs.Prelude.{◌≡◌, take};
ghost use Rattle.append.specs.Append.{Puts};
ghost use Rattle.elements_shown.specs.Shown.{line_at, item, numbers_line, refusal_shown, elements_line, Shows};

use append::Text;
use element_lines::Elements;
use passes::pieces;
use refusal::Refusal;

// What is read of an input. It decides: a second line behind a first of 69 bytes begins by byte 72, so a line that is cut here has more than 69,
// or stands behind a first that has not 69. The answer is refusal 14, as it would be for the whole line.
fn read_part(input: &[u8]) -> &[u8]
    ensures { result.now ≡ take 256 input.now }
{
    if input.len() < 256 {
        return input;
    }
    &input[..256]
}

// The first line, without its end: empty where there is none.
fn first_line(text: &[u8]) -> &[u8]
    ensures { result.now ≡ line_at 0 text.now }
{
    if text.len() == 0 {
        return text;
    }
    let n = pieces::line(text).size;
    &text[..n]
}

fn second_line(text: &[u8]) -> &[u8]
    ensures { result.now ≡ line_at 1 text.now }
{
    if text.len() == 0 {
        return text;
    }
    let next = pieces::line(text).next;
    first_line(&text[next..])
}

// A number and the blank behind it.
fn put_item(n: u64, text: &mut Text<'_>)
    ensures { Puts (item n) text.old text.new }
{
    text.put_number(n);
    text.put(b" ");
}

fn put_numbers(e: Elements, text: &mut Text<'_>)
    ensures { Puts (numbers_line e) text.old text.new }
{
    put_item(e.year, text);
    put_item(e.day, text);
    put_item(e.inclination, text);
    put_item(e.node, text);
    put_item(e.mean_anomaly, text);
    text.put_number(e.mean_motion);
    text.put(b"\n");
}

fn put_refusal(k: u32, text: &mut Text<'_>)
    ensures { Puts (refusal_shown k) text.old text.new }
{
    text.put(b"- ");
    text.put_number(k as u64);
    text.put(b"\n");
}

fn put_answer(answer: Result<Elements, Refusal>, text: &mut Text<'_>)
    ensures { Puts (elements_line answer) text.old text.new }
{
    match answer {
        Ok(e) => put_numbers(e, text),
        Err(r) => put_refusal(r.number(), text),
    }
}

// The line with its line end into the first bytes of `out`, and its length.
pub fn show_elements(input: &[u8], out: &mut [u8; 128]) -> usize
    ensures { Shows input.now out.old out.new result }
{
    let part = read_part(input);
    let line1 = first_line(part);
    let line2 = second_line(part);
    let mut text = Text::new(out);
    put_answer(element_lines::read_element_lines(line1, line2), &mut text);
    text.len()
}
