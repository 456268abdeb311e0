// Sample times: nanoseconds since 1970-01-01T00:00:00Z. `of_nanos`, `to_nanos` and `to_moment` serve the crates above, which
// have tested the times they pass.
ghost use Rattle.std.specs.Prelude.{◌≡◌, true};
ghost use Rattle.moment.specs.Range.{Within};
ghost use Rattle.moment.specs.Sample.{time_in_range, times_in_range, instant_at, moment_at, since_of};

use crate::{Instant, Moment};

// False is refusal 4.
pub fn in_range(t: i64) -> bool
    ensures { result ≡ time_in_range t }
{
    -410227200000000000 <= t && t < 2745532800000000000
}

pub fn all_in_range(times: &[i64]) -> bool
    ensures { result ≡ times_in_range times.now }
{
    times.iter().all(|t| in_range(*t))
}

pub fn of_nanos(t: i64) -> Instant
    requires { time_in_range t ≡ true }
    ensures { (result ≡ instant_at t) × Within 0 result.secs result.nanos }
{
    let n = (t + crate::COUNT_1970) as u64;
    Instant {
        secs: n / 1000000000 + crate::COUNTS_START,
        nanos: (n % 1000000000) as u32,
    }
}

pub fn to_nanos(m: Instant) -> i64
    requires { Within 622 m.secs m.nanos }
    ensures { result ≡ since_of m }
{
    let n = (m.secs - crate::COUNTS_START) * 1000000000 + m.nanos as u64;
    n as i64 - crate::COUNT_1970
}

// As a caller gets it: whole seconds, downward.
pub fn to_moment(t: i64) -> Moment
    requires { time_in_range t ≡ true }
    ensures { result ≡ moment_at t }
{
    let m = of_nanos(t);
    Moment {
        seconds: m.secs as i64 - 17592186044416,
        nanos: m.nanos,
    }
}
