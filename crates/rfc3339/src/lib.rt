// A date and time as RFC 3339 writes it.
#![tactic(auto)]

ghost use Rattle.std.specs.Prelude.{◌≡◌, ◌+◌, ◌-◌, ◌*◌, ◌≤◌, ◌<◌, length, drop};
ghost use Rattle.decimal.specs.Read.{digit_run};
ghost use Rattle.rfc3339.specs.Rfc3339 as Rfc;

use decimal::read;
use moment::calendar;

// Seconds from a day before the year 0000, and nanoseconds.
#[derive(Clone, Copy, PartialEq, Eq, Debug)]
pub struct Timestamp {
    pub seconds: u64,
    pub nanos: u64,
}

// A day and a time of day as they are written, which the calendar or the clock may lack.
#[derive(Clone, Copy)]
struct Written {
    year: u64,
    month: u64,
    day: u64,
    hour: u64,
    minute: u64,
    second: u64,
}

// The byte c stands where a pattern has p.
#[tactic(auto, unfolding(crate::specs::Rfc3339::place_fits))]
fn fits(p: u8, c: u8) -> bool
    ensures { result ≡ Rfc.place_fits p c }
{
    if p == b'0' {
        c.is_ascii_digit()
    } else {
        c.to_ascii_lowercase() == p
    }
}

// l starts as the pattern says.
fn matches(p: &[u8], l: &[u8]) -> bool
    ensures { result ≡ Rfc.matches p.now l.now }
{
    p.len() <= l.len() && p.iter().zip(l).all(|(q, c)| fits(*q, *c))
}

// A digit's value.
fn digit(c: u8) -> u64
    ensures { Rfc.Digit c result }
{
    u64::from(c.saturating_sub(b'0'))
}

// The two digits at a place.
fn two_digits(l: &[u8], i: usize) -> u64
    requires { i < 9223372036854775808 }
    ensures { Rfc.Two l.now i result }
{
    let a = digit(read::byte(l, i));
    let b = digit(read::byte(l, i + 1));
    a * 10 + b
}

// A day that the calendar has.
#[tactic(auto, unfolding(crate::specs::Rfc3339::valid_date))]
fn valid_date(y: u64, m: u64, d: u64) -> bool
    ensures { result ≡ Rfc.valid_date y m d }
{
    (1..=12).contains(&m) && (1..=calendar::month_length(calendar::leap_year(y), m)).contains(&d)
}

// A time that a day has.
#[tactic(auto, unfolding(crate::specs::Rfc3339::valid_time))]
fn valid_time(h: u64, m: u64, s: u64) -> bool
    ensures { result ≡ Rfc.valid_time h m s }
{
    h <= 23 && m <= 59 && s <= 59
}

// The first nine of the n digits at 20, as billionths.
fn nanos(l: &[u8], n: usize) -> u64
    requires { Rfc.Fraction l.now n }
    ensures { Rfc.Nanos l.now n result }
{
    let kept = n.min(9);
    read::append(l, 20, kept, 0, 0) * 10u64.pow((9 - kept) as u32)
}

// Local time becomes UTC: an offset stands at z, of a sign, hours and minutes.
#[tactic(auto, unfolding(crate::specs::Rfc3339::numoffset))]
fn numoffset(l: &[u8], z: usize, local: Timestamp) -> Option<Timestamp>
    requires { Rfc.OffsetRoom local.seconds × (length l.now ≡ z + 6) }
    ensures { result ≡ Rfc.numoffset l.now z local.seconds local.nanos }
{
    if !matches(b"00:00", &l[z + 1..]) {
        return None;
    }
    let h = two_digits(l, z + 1);
    let m = two_digits(l, z + 4);
    if !valid_time(h, m, 0) {
        return None;
    }
    let offset = h * 3600 + m * 60;
    let seconds = match read::byte(l, z) {
        b'+' => local.seconds - offset,
        b'-' => local.seconds + offset,
        _ => return None,
    };
    Some(Timestamp {
        seconds,
        nanos: local.nanos,
    })
}

// At z stands Z or an offset, and nothing after.
#[tactic(auto, unfolding(crate::specs::Rfc3339::time_offset))]
fn time_offset(l: &[u8], z: usize, local: Timestamp) -> Option<Timestamp>
    requires { Rfc.OffsetRoom local.seconds × (z < 9223372036854775808) }
    ensures { result ≡ Rfc.time_offset l.now z local.seconds local.nanos }
{
    if l.len() == z + 1 && read::byte(l, z).to_ascii_lowercase() == b'z' {
        return Some(local);
    }
    if l.len() == z + 6 {
        return numoffset(l, z, local);
    }
    None
}

// Behind the seconds a point and digits may stand.
#[tactic(auto, unfolding(crate::specs::Rfc3339::time_secfrac))]
fn time_secfrac(l: &[u8], seconds: u64) -> Option<Timestamp>
    requires { Rfc.OffsetRoom seconds }
    ensures { result ≡ Rfc.time_secfrac l.now seconds }
{
    if read::byte(l, 19) != b'.' {
        return time_offset(l, 19, Timestamp { seconds, nanos: 0 });
    }
    let n = read::digits(l, 20);
    if n == 0 {
        return None;
    }
    time_offset(
        l,
        20 + n,
        Timestamp {
            seconds,
            nanos: nanos(l, n),
        },
    )
}

// Seconds of local time, from a day before the year 0000.
fn seconds(t: Written) -> u64
    requires { Rfc.Clock t.year t.month t.day t.hour t.minute t.second }
    ensures { Rfc.Seconds t.year t.month t.day t.hour t.minute t.second result }
{
    let days = calendar::days_to_year(t.year)
        + calendar::months_length(calendar::leap_year(t.year), t.month - 1)
        + t.day;
    days * 86400 + t.hour * 3600 + t.minute * 60 + t.second
}

#[tactic(auto, unfolding(crate::specs::Rfc3339::date_time))]
fn date_time(l: &[u8], t: Written) -> Option<Timestamp>
    requires { t.year < 1000000 }
    ensures { result ≡ Rfc.date_time l.now t.year t.month t.day t.hour t.minute t.second }
{
    if !valid_date(t.year, t.month, t.day) || !valid_time(t.hour, t.minute, t.second) {
        return None;
    }
    time_secfrac(l, seconds(t))
}

// The moment in UTC that the bytes write.
#[tactic(auto, unfolding(crate::specs::Rfc3339::date_time_of))]
pub fn parse_from_rfc3339(l: &[u8]) -> Option<Timestamp>
    ensures { result ≡ Rfc.date_time_of l.now }
{
    if !matches(b"0000-00-00t00:00:00", l) {
        return None;
    }
    let t = Written {
        year: two_digits(l, 0) * 100 + two_digits(l, 2),
        month: two_digits(l, 5),
        day: two_digits(l, 8),
        hour: two_digits(l, 11),
        minute: two_digits(l, 14),
        second: two_digits(l, 17),
    };
    date_time(l, t)
}
