// The refusals of documents 01 and 02, by name and by number. 0 says that a call was not refused.
#![tactic(auto)]

ghost use Rattle.std.specs.Prelude.{◌≡◌};
ghost use Rattle.refusal.specs.Refusals.{number_of, status_of, left_by};

// Why a call refuses what it is given. The numbers are the documents'.
#[derive(Clone, Copy, PartialEq, Eq, Debug)]
pub enum Refusal {
    // From the input.
    // A pass file or a position line holds a byte above 127.
    NonAscii = 1,
    // A line has more than 256 bytes, its end not counted.
    LongLine = 2,
    // A number has too many digits or too large an exponent.
    NumberSize = 3,
    // A moment is outside 1957 to 2056, or has more than 999,999,999 nanoseconds.
    MomentRange = 4,
    // Sizes disagree with the arrays, or exceed 16 passes or 4,096 samples.
    Sizes = 5,
    // The receiver, the initial a or the initial i is NaN.
    NanArgument = 6,
    // The initial a or i is out of range.
    InitialRange = 7,
    // A sample's frequency is NaN.
    NanFrequency = 8,
    // Fewer than two passes are non-empty.
    FewPasses = 9,
    // There are fewer samples than 4 and the number of non-empty passes.
    FewSamples = 10,
    // The orbit or the name cannot be printed as element lines.
    Unprintable = 11,
    // A base, a number of digits, a history or a matrix is out of range.
    Limits = 12,
    // A latitude, longitude or height is out of range or NaN, or a line is not three such numbers.
    PositionRange = 13,
    // An element line has not 69 bytes, or a byte that may not stand in its column.
    LineColumns = 14,
    // An element line's column 69 is not its checksum.
    LineChecksum = 15,
    // The eccentricity of element lines is not zero.
    Eccentric = 16,
    // From the state.
    // A lent output or scratch is too short.
    ShortMemory = 21,
    // The chosen pivot is below 1e-12 in size.
    SmallPivot = 22,
    // An adjusted moment is over 8,000,000,000,000 s from 1970.
    FarMoment = 23,
    // The best sum is above 1e11, or no trial gave a sum below the largest f64.
    LargeSum = 24,
    // A returned frequency offset exceeds 500 kHz in size.
    LargeOffset = 25,
}

impl Refusal {
    // The document's number, as C and the command give it.
    pub fn number(self) -> u32
        ensures { result ≡ number_of self }
    {
        self as u32
    }
}

// An answer as other languages get it: 0, or the refusal's number.
pub fn status(answer: Result<(), Refusal>) -> u32
    ensures { result ≡ status_of answer }
{
    match answer {
        Ok(()) => 0,
        Err(r) => r.number(),
    }
}

// The same with the value in `out`, which stays as it was where the answer is a refusal.
pub fn report<T: Copy>(answer: Result<T, Refusal>, out: &mut T) -> u32
    ensures value { result ≡ status_of answer }
    ensures out_after { out.new ≡ left_by out.old answer }
{
    match answer {
        Ok(value) => {
            *out = value;
            0
        }
        Err(r) => r.number(),
    }
}
