// Moments, the time between two, and the Gregorian calendar.
#![tactic(auto)]

pub mod calendar;
pub mod sample;
pub mod time;

ghost use Rattle.std.specs.Prelude.{◌≡◌};
ghost use Rattle.moment.specs.Time.{seconds_of};
ghost use Rattle.moment.specs.Range.{Gives};

use refusal::Refusal;

// Origins and ends in seconds from 2^44 s before 1970: 1970 itself, 1956-03-01, from which the calendar counts days, and the
// moments that a call takes, from 1957-01-01 up to, not including, 2057-01-01 (refusal 4).
pub const START_1970: u64 = 17592186044416;

pub const MARCH_1956: u64 = 17591749378816;

pub const START_1957: u64 = 17591775817216;

pub const START_2057: u64 = 17594931577216;

// The origin of counts of nanoseconds that 64 bits hold, 4,000,000,000 s before 1970; and 1970 as such a count.
pub const COUNTS_START: u64 = 17588186044416;

pub const COUNT_1970: i64 = 4000000000000000000;

// Whole seconds since 1970-01-01T00:00:00Z, and nanoseconds after them.
#[derive(Clone, Copy)]
pub struct Moment {
    pub seconds: i64,
    pub nanos: u32,
}

// The same counted from 2^44 seconds before 1970: no moment that a call meets is below zero. The earlier one is less.
#[derive(Clone, Copy, PartialEq, Eq, PartialOrd, Ord)]
pub struct Instant {
    pub secs: u64,
    pub nanos: u32,
}

// Seconds since 1970 counted from 2^44 s before; 0 if earlier.
fn seconds_of(s: i64) -> u64
    ensures { result ≡ seconds_of s }
{
    if s >= 0 {
        return s as u64 + START_1970;
    }
    if s < -17592186044416 {
        return 0;
    }
    (s + 17592186044416) as u64
}

// A moment as a call gets it. Refused: 4, it is outside 1957 to 2056 or has more than 999,999,999 nanoseconds.
impl TryFrom<Moment> for Instant {
    type Error = Refusal;

    ghost try_from_gives = { Gives };

    fn try_from(t: Moment) -> Result<Self, Refusal> {
        let secs = seconds_of(t.seconds);
        if START_1957 <= secs && secs < START_2057 && t.nanos < 1000000000 {
            Ok(Instant {
                secs,
                nanos: t.nanos,
            })
        } else {
            Err(Refusal::MomentRange)
        }
    }
}
