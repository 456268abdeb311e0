// Bytes cut into lines, and lines into what stands between blanks and before a byte. `line` is internal: its callers meet what it requires by proof.
ghost use Rattle.std.specs.Prelude.{◌≡◌, ◌+◌, ◌≤◌, ◌<◌, length};
ghost use Rattle.passes.specs.Text as Text;

// A part of a slice.
#[derive(Clone, Copy, PartialEq, Eq, Debug)]
pub struct Span {
    pub start: usize,
    pub end: usize,
}

// A line's length without its end, and the place of the next.
#[derive(Clone, Copy, PartialEq, Eq, Debug)]
pub struct Cut {
    pub size: usize,
    pub next: usize,
}

#[tactic(auto, unfolding(crate::specs::Text::blank))]
fn blank(c: u8) -> bool
    ensures { result ≡ Text.blank c }
{
    c == b' ' || (9..=13).contains(&c)
}

// Where the first byte that is no blank stands.
fn trim_start(l: &[u8]) -> usize
    ensures { Text.Blanks l.now result }
{
    l.iter().take_while(|c| blank(**c)).count()
}

// Where the last byte that is no blank ends.
fn trim_end(l: &[u8]) -> usize
    ensures { Text.TrimsTo l.now result }
{
    l.len() - l.iter().rev().take_while(|c| blank(**c)).count()
}

// The part without the blanks at both ends.
pub fn trim(l: &[u8]) -> Span
    ensures { Text.Trimmed l.now result.start result.end }
{
    let s = trim_start(l);
    let e = trim_end(&l[s..]);
    Span {
        start: s,
        end: s + e,
    }
}

// How many bytes stand before the first b.
pub fn until(b: u8, l: &[u8]) -> usize
    ensures { Text.Until b l.now result }
{
    l.iter().position(|c| *c == b).unwrap_or(l.len())
}

pub fn ascii(l: &[u8]) -> bool
    ensures { result ≡ Text.ascii l.now }
{
    l.is_ascii()
}

// The first line.
pub fn line(l: &[u8]) -> Cut
    requires { 0 < length l.now }
    ensures { Text.Cut l.now result.size result.next }
{
    let k = until(b'\n', l);
    if k == l.len() {
        return Cut { size: k, next: k };
    }
    let next = k + 1;
    if 0 < k && l[k - 1] == b'\r' {
        return Cut { size: k - 1, next };
    }
    Cut { size: k, next }
}
