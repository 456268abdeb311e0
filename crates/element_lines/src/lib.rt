// Two element lines of the NORAD two-line format, read into whole numbers. The public function takes any input.
#![tactic(auto)]

mod columns;
mod numbers;

ghost use Rattle.std.specs.Prelude.{◌≡◌, length};
ghost use Rattle.element_lines.specs.Reading as Reading;

use refusal::Refusal;

// What the lines say. Each is a whole number in units of its last printed place.
#[derive(Clone, Copy)]
pub struct Elements {
    // The epoch: the last two digits of the year, and 10^-8 days of the year, of which January 1 is day 1.
    pub year: u64,
    pub day: u64,
    // 10^-4 degrees.
    pub inclination: u64,
    pub node: u64,
    // From the node: argument of perigee and mean anomaly together, below a turn.
    pub mean_anomaly: u64,
    // 10^-8 revolutions a day.
    pub mean_motion: u64,
}

// Whether column 69 is the checksum.
#[tactic(auto, unfolding(crate::specs::Reading::summed))]
fn is_summed(line: &[u8]) -> bool
    requires { length line.now ≡ 69 }
    ensures { result ≡ Reading.summed line.now }
{
    numbers::number_in(69, 69, line) == tle::tle_checksum(line) as u64
}

#[tactic(auto, unfolding(crate::specs::Reading::circular))]
fn is_circular(line2: &[u8]) -> bool
    requires { length line2.now ≡ 69 }
    ensures { result ≡ Reading.circular line2.now }
{
    numbers::number_in(27, 33, line2) == 0
}

#[tactic(auto, unfolding(crate::specs::Reading::anomaly_from_node))]
fn anomaly_from_node(line2: &[u8]) -> u64
    requires { length line2.now ≡ 69 }
    ensures { result ≡ Reading.anomaly_from_node line2.now }
{
    (numbers::number_in(44, 51, line2) + numbers::number_in(35, 42, line2)) % 3600000
}

#[tactic(auto, unfolding(crate::specs::Reading::elements_in))]
fn elements_in(line1: &[u8], line2: &[u8]) -> Elements
    requires { (length line1.now ≡ 69) × (length line2.now ≡ 69) }
    ensures { result ≡ Reading.elements_in line1.now line2.now }
{
    Elements {
        year: numbers::number_in(19, 20, line1),
        day: numbers::number_in(21, 32, line1),
        inclination: numbers::number_in(9, 16, line2),
        node: numbers::number_in(18, 25, line2),
        mean_anomaly: anomaly_from_node(line2),
        mean_motion: numbers::number_in(53, 63, line2),
    }
}

// What two lines of 69 bytes say of a circular orbit. Each refusal is tried on both lines before the next.
pub fn read_element_lines(line1: &[u8], line2: &[u8]) -> Result<Elements, Refusal>
    ensures { result ≡ Reading.read_element_lines_of line1.now line2.now }
{
    if !columns::is_line_1(line1) || !columns::is_line_2(line2) {
        return Err(Refusal::LineColumns);
    }
    if !is_summed(line1) || !is_summed(line2) {
        return Err(Refusal::LineChecksum);
    }
    if !is_circular(line2) {
        return Err(Refusal::Eccentric);
    }
    Ok(elements_in(line1, line2))
}
