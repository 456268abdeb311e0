// Element lines read for other languages, a static library beside that of `exports` and by its rules: a call returns the number of the refusal,
// 0 if none, and writes the whole numbers of `element_lines::Elements` into `out`; refused, it leaves `out` as it was.
#![tactic(auto)]

ghost use Rattle.std.specs.Prelude.{◌≡◌};
ghost use Rattle.element_lines.specs.Reading.{read_element_lines_of};
ghost use Rattle.exports_element_lines.specs.Written.{six_numbers, GivesElements};

use element_lines::Elements;
use refusal::Refusal;

// An answer's numbers in the order in which they are given.
fn six_numbers(answer: Result<Elements, Refusal>) -> Result<[u64; 6], Refusal>
    ensures { result ≡ six_numbers answer }
{
    let e = answer?;
    Ok([
        e.year,
        e.day,
        e.inclination,
        e.node,
        e.mean_anomaly,
        e.mean_motion,
    ])
}

// The two digits of the year, 10^-8 days of the year, inclination, node and mean anomaly from the node in 10^-4 degrees, and 10^-8
// revolutions a day.
#[unsafe(no_mangle)]
pub extern "C" fn wisvalom_read_element_lines(line1: &[u8], line2: &[u8], out: &mut [u64; 6]) -> u32
    ensures { GivesElements (read_element_lines_of line1.now line2.now) out.old out.new result }
{
    let answer = element_lines::read_element_lines(line1, line2);
    refusal::report(six_numbers(answer), out)
}
