// Why something was refused.
ghost use Rattle.std.specs.Prelude.{◌≡◌};
ghost use Rattle.append.specs.Append.{Puts};
ghost use Rattle.report_text.specs.Sentences.{sentence_of, numbered_of, refusal_line, file_refusal_of, line_text};

use append::Text;
use refusal::Refusal;

// The sentence of a refusal; those that no command meets have none of their own.
#[tactic(auto, unfolding(crate::specs::Sentences::sentence_of))]
fn words(refusal: Refusal) -> &'static [u8]
    ensures { result.now ≡ sentence_of refusal }
{
    match refusal {
        Refusal::NonAscii => b"a byte above 127",
        Refusal::LongLine => b"a line of more than 256 bytes",
        Refusal::NumberSize =>
            b"a number of more than 19 digits, or with an exponent outside -30 to 30",
        Refusal::MomentRange => b"a moment outside 1957 to 2056",
        Refusal::Sizes => b"more than 16 passes or 4096 samples",
        Refusal::NanArgument => b"the mast's position or the inclination is not a number",
        Refusal::InitialRange => b"the inclination is outside 0 to 180 degrees",
        Refusal::NanFrequency => b"a sample's frequency is not a number",
        Refusal::FewPasses => b"fewer than two passes have samples",
        Refusal::FewSamples => b"fewer samples than four and one for each pass that has any",
        Refusal::Unprintable =>
            b"the orbit cannot be printed, or the name is over 24 bytes or has a byte outside 32 to 126",
        Refusal::PositionRange =>
            b"latitude, longitude and height are not three numbers with commas and no blanks between them, within 90 and 360 degrees and -500 to 10000 m",
        Refusal::ShortMemory => b"too little memory was lent",
        Refusal::FarMoment => b"a moment of a prediction lies over 8000000000000 s from 1970",
        Refusal::LargeSum => b"no orbit fits: the best sum is above 1e11, or no trial gave one",
        Refusal::LargeOffset => b"a pass's frequency offset exceeds 500 kHz",
        _ => b"refused",
    }
}

pub fn sentence(refusal: Refusal, text: &mut Text<'_>)
    ensures { Puts (sentence_of refusal) text.old text.new }
{
    text.put(words(refusal));
}

// "refusal 4: a moment outside 1957 to 2056" and a line end.
fn numbered(refusal: Refusal, text: &mut Text<'_>)
    ensures { Puts (numbered_of refusal) text.old text.new }
{
    text.put(b"refusal ");
    text.put_number(refusal.number() as u64);
    text.put(b": ");
    sentence(refusal, text);
    text.put(b"\n");
}

// Of a fit.
pub fn refusal(refusal: Refusal, text: &mut Text<'_>)
    ensures { Puts (refusal_line refusal) text.old text.new }
{
    text.put(b"fit_passes: ");
    numbered(refusal, text);
}

// "line 12: ", where there is a line.
fn line(n: Option<usize>, text: &mut Text<'_>)
    ensures { Puts (line_text n) text.old text.new }
{
    if let Some(n) = n {
        text.put(b"line ");
        text.put_number(n as u64);
        text.put(b": ");
    }
}

// Of a file, called by its name, at a line, counted from 1, where the refusal belongs to one.
pub fn file_refusal(name: &[u8], n: Option<usize>, refusal: Refusal, text: &mut Text<'_>)
    ensures { Puts (file_refusal_of name.now n refusal) text.old text.new }
{
    text.put(name);
    text.put(b": ");
    line(n, text);
    numbered(refusal, text);
}
