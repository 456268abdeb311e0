// Asks stored answers again: standard input is a list of lines, each a question with its answer (`crates/answer_lines`), which
// `oracle/store` makes. A line `not ..` has an answer that was changed and must differ, so that a comparison which finds everything the
// same is found out; the last line, `end ..`, says how many lines stand before it, so that a list which is cut is found out.
#![tactic(auto)]

mod files;
mod rooms;
mod unpacked;

ghost use Rattle.std.specs.Prelude.{◌≡◌, ◌+◌, ◌<◌, ◌++◌};
ghost use Rattle.append.specs.Append.{Puts, numeral};
ghost use Rattle.replay.specs.Count.{lines_in, counted, tally_with, tally_ended, Tallied};
ghost use Rattle.replay.specs.Report.{list_ending, report_text, Reports};

use append::Text;
use std::io;
use std::io::Stdout;

// What the lines came to so far.
#[derive(Clone, Copy)]
struct Tally {
    agreed: u64,
    differed: u64,
    // changed lines that differ, as they must, and that agree
    caught: u64,
    missed: u64,
    // last lines, and whether the line before the next one was one with the right number
    ends: u64,
    whole: bool,
}

fn agrees(line: &[u8]) -> bool {
    files::agrees(line)
        || replay_lines::agrees(line)
        || replay_numbers::agrees(line)
        || replay_sums::agrees(line)
        || replay_geodetic::agrees(line)
        || replay_elements::agrees(line)
        || replay_fits::agrees(line)
}

// A line that cannot be written is lost: then the report cannot be written either, by which the program fails.
fn show(stdout: Stdout, line: &[u8]) {
    let _ = stdout.write_all(line);
    let _ = stdout.write_all(b"\n");
}

// The tally with one line more, which was changed or not, and agrees or not.
fn noted(t: Tally, changed: bool, same: bool) -> Tally
    requires { counted t + 1 < 18446744073709551616 }
    ensures { result ≡ tally_with t changed same }
{
    let t = Tally { whole: false, ..t };
    if changed {
        if same {
            return Tally {
                missed: t.missed + 1,
                ..t
            };
        }
        return Tally {
            caught: t.caught + 1,
            ..t
        };
    }
    if same {
        return Tally {
            agreed: t.agreed + 1,
            ..t
        };
    }
    Tally {
        differed: t.differed + 1,
        ..t
    }
}

// The tally with a last line, which says how many lines stand before it.
fn ended(t: Tally, said: u64) -> Tally
    requires { counted t + 1 < 18446744073709551616 }
    ensures { result ≡ tally_ended t said }
{
    let before = t.agreed + t.differed + t.caught + t.missed + t.ends;
    Tally {
        ends: t.ends + 1,
        whole: said == before,
        ..t
    }
}

// Whether the line agrees, its mark `not ` put aside. A line that is not as it must be is written.
fn found(stdout: Stdout, line: &[u8], changed: bool) -> bool {
    let mark = if changed { 4usize } else { 0usize };
    let same = agrees(answer_lines::after(line, mark));
    if same == changed {
        show(stdout, line);
    }
    same
}

// The tally with one line more.
fn tallied(stdout: Stdout, t: Tally, line: &[u8]) -> Tally
    requires { counted t + 1 < 18446744073709551616 }
    ensures { Tallied t line.now result }
{
    if answer_lines::begins_with(line, b"end ") {
        return ended(t, answer_lines::field(answer_lines::asked(line), 0));
    }
    let changed = answer_lines::begins_with(line, b"not ");
    noted(t, changed, found(stdout, line, changed))
}

// The tally of a whole list: every line is counted, and once.
fn compare(stdout: Stdout, text: &[u8]) -> Tally
    ensures { counted result ≡ lines_in text.now }
{
    let mut t = Tally {
        agreed: 0,
        differed: 0,
        caught: 0,
        missed: 0,
        ends: 0,
        whole: false,
    };
    let mut at = 0usize;
    while at < text.len() {
        let end = answer_lines::line_end(text, at);
        t = tallied(stdout, t, &text[at..end]);
        at = end + 1;
    }
    t
}

// A number and words after it.
fn said(n: u64, words: &[u8], text: &mut Text<'_>)
    ensures { Puts (numeral n ++ words.now) text.old text.new }
{
    text.put_number(n);
    text.put(words);
}

fn ending(whole: bool, text: &mut Text<'_>)
    ensures { Puts (list_ending whole) text.old text.new }
{
    if whole {
        return text.put(b"whole\n");
    }
    text.put(b"cut\n");
}

fn put_report(t: Tally, text: &mut Text<'_>)
    ensures { Puts (report_text t) text.old text.new }
{
    said(t.agreed, b" agree, ", text);
    said(t.differed, b" differ; changed lines: ", text);
    said(t.caught, b" differ, ", text);
    said(t.missed, b" agree; the list is ", text);
    ending(t.whole, text);
}

// What the program prints, into the first bytes of `out`, and its length: there is room for all of it.
fn report(t: Tally, out: &mut [u8; 160]) -> usize
    ensures { Reports t out.old out.new result }
{
    let mut text = Text::new(out);
    put_report(t, &mut text);
    text.len()
}

fn main(rt: HostRuntime) -> io::Result<()> {
    let mut text = rooms::list();
    let n = standard_input::read_full(rt.stdin(), &mut text);
    let stdout = rt.stdout();
    let t = compare(stdout, &text[..n]);
    let mut out = [0u8; 160];
    let k = report(t, &mut out);
    stdout.write_all(answer_lines::first(&out, k as u64))
}
