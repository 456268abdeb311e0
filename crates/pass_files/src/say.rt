// What is said of a file on standard error. `write` and `put` serve the command too.
use append::Text;
use refusal::Refusal;
use std::io::Stderr;
use survey::Tally;

// What cannot be written there is lost: the command goes on without it.
pub fn write(stderr: Stderr, text: &[u8]) {
    let _ = stderr.write_all(text);
}

// The text that `fill` puts, up to 4,608 bytes: a file's name has 4,096 at most, and no other text more than 512.
pub fn put<F: FnOnce(&mut Text<'_>)>(stderr: Stderr, fill: F)
    requires { F.IsAlwaysCallable fill }
{
    let mut room = [0u8; 4608];
    let mut text = Text::new(&mut room);
    fill(&mut text);
    write(stderr, text.written());
}

// n in decimal digits.
fn number(stderr: Stderr, n: usize) {
    put(stderr, |text| text.put_number(n as u64));
}

// A message about one file.
pub fn file(stderr: Stderr, path: &[u8], what: &[u8]) {
    write(stderr, path);
    write(stderr, b": ");
    write(stderr, what);
    write(stderr, b"\n");
}

// A refused file, and at which of its lines, where the refusal belongs to one.
pub fn refused(stderr: Stderr, path: &[u8], file: &[u8], refusal: Refusal) {
    let line = survey::survey(file).refused;
    put(stderr, |text| {
        report_text::refused::file_refusal(path, line, refusal, text)
    });
}

fn all_or_some(stderr: Stderr, t: Tally) {
    if t.used == 0 {
        write(stderr, b"all ");
    }
    number(stderr, t.skipped);
}

fn line_or_lines(stderr: Stderr, n: usize) {
    if n == 1 {
        write(stderr, b" line that is");
        return;
    }
    write(stderr, b" lines that are");
}

// How many of an accepted file's lines were skipped.
pub fn skipped(stderr: Stderr, path: &[u8], file: &[u8]) {
    let t = survey::survey(file);
    let Some(first) = t.first else {
        return;
    };
    write(stderr, b"warning: ");
    write(stderr, path);
    write(stderr, b": skipped ");
    all_or_some(stderr, t);
    line_or_lines(stderr, t.skipped);
    write(stderr, b" neither a header nor a sample, first line ");
    number(stderr, first);
    write(stderr, b"\n");
}

fn unlike(stderr: Stderr, path: &[u8], name: &[u8], file: &[u8]) {
    if pass_checks::is_other_name(name, file) {
        write(stderr, b"warning: ");
        write(stderr, path);
        write(
            stderr,
            b": its satellite's name differs from that of a file before it, ",
        );
        write(stderr, name);
        write(stderr, b"\n");
    }
}

// A file that names another satellite than a file before it, whose name is in the first n bytes.
pub fn other_name(stderr: Stderr, path: &[u8], name: &[u8], n: usize, file: &[u8]) {
    if let Some(kept) = name.get(..n) {
        unlike(stderr, path, kept, file);
    }
}
