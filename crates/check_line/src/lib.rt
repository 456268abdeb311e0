// What document 01's checking program prints of a pass file: its first 32 KiB are read.
#![tactic(auto)]

pub mod program;

ghost use Rattle.append.specs.Append.{Puts};
ghost use Rattle.check_line.specs.Check.{name_shown, accepted_line, refused_line, answer_line, file_line, Checks};

use append::Text;
use passes::file;
use passes::file::PassFile;
use refusal::Refusal;

fn name(pass: &[u8], r: PassFile, text: &mut Text<'_>)
    ensures { Puts (name_shown pass.now r) text.old text.new }
{
    match r.name {
        Some(part) => text.put(file::name_at(pass, part)),
        None => text.put(b"UNKNOWN"),
    }
}

fn accepted(pass: &[u8], r: PassFile, text: &mut Text<'_>)
    ensures { Puts (accepted_line pass.now r) text.old text.new }
{
    name(pass, r, text);
    text.put(b" ");
    text.put_number(r.count as u64);
    text.put(b" 0\n");
}

fn refused(k: u32, text: &mut Text<'_>)
    ensures { Puts (refused_line k) text.old text.new }
{
    text.put(b"- 0 ");
    text.put_number(k as u64);
    text.put(b"\n");
}

fn answer(pass: &[u8], r: Result<PassFile, Refusal>, text: &mut Text<'_>)
    ensures { Puts (answer_line pass.now r) text.old text.new }
{
    match r {
        Ok(file) => accepted(pass, file, text),
        Err(refusal) => refused(refusal.number(), text),
    }
}

fn line(pass: &[u8], text: &mut Text<'_>)
    ensures { Puts (file_line pass.now) text.old text.new }
{
    let mut times = [0i64; 4096];
    let mut freqs = [0.0f64; 4096];
    let r = file::read_pass_file(pass, &mut times, &mut freqs);
    answer(pass, r, text);
}

// The line with its line end into the first bytes of `out`, and its length.
pub fn check_line(bytes: &[u8], out: &mut [u8; 32800]) -> usize
    ensures { Checks bytes.now out.old out.new result }
{
    let mut text = Text::new(out);
    line(&bytes[..bytes.len().min(32768)], &mut text);
    text.len()
}
