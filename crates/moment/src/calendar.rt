// The Gregorian calendar. `date_of`, `months_length`, `days_to_year` and `ordinal` serve the crates above, which pass days,
// months and years in range. `date_of` counts days from 1956-03-01, up to 2096-02-29: with it a leap year is every fourth.
ghost use Rattle.std.specs.Prelude.{◌≡◌, ◌<◌, ◌≤◌, min};
ghost use Rattle.moment.specs.Calendar.{leap, date_of, ordinal_of, Month, Months, Years};

#[derive(Clone, Copy)]
pub struct Date {
    pub year: u32,
    pub month: u32,
    pub day: u32,
}

// The date of the n-th day after 1956-03-01. Years are counted from March, in fours of 1,461 days; from
// March on, months have 31, 30, 31, 30, 31, 31, 30, 31, 30, 31, 31 days and the rest.
pub fn date_of(n: u64) -> Date
    requires { n < 51135 }
    ensures { result ≡ date_of n }
{
    let rest = n % 1461;
    let turn = (rest / 365).min(3);
    let doy = rest - 365 * turn;
    let mp = (5 * doy + 2) / 153;
    let day = doy - (153 * mp + 2) / 5 + 1;
    let base = 1956 + n / 1461 * 4;
    if mp < 10 {
        Date {
            year: (base + turn) as u32,
            month: (mp + 3) as u32,
            day: day as u32,
        }
    } else {
        Date {
            year: (base + (turn + 1)) as u32,
            month: (mp - 9) as u32,
            day: day as u32,
        }
    }
}

// Every fourth year, but no hundredth, but every four hundredth.
pub fn leap_year(y: u64) -> bool
    ensures { result ≡ leap y }
{
    if y % 400 == 0 {
        return true;
    }
    if y % 100 == 0 {
        return false;
    }
    y % 4 == 0
}

// How many days month m of a leap year, or of another, has.
pub fn month_length(leap: bool, m: u64) -> u64
    ensures { Month leap m result }
{
    match m {
        2 => { if leap { 29 } else { 28 } }
        4 | 6 | 9 | 11 => 30,
        _ => 31,
    }
}

// How many days the first n months of a leap year, or of another, have.
pub fn months_length(leap: bool, n: u64) -> u64
    requires { n ≤ 12 }
    ensures { Months leap n result }
{
    let mut days = 0;
    for m in 1..n + 1 {
        days += month_length(leap, m);
    }
    days
}

// How many days lie between the first days of the years 0000 and y.
pub fn days_to_year(y: u64) -> u64
    requires { y < 1000000 }
    ensures { Years y result }
{
    y * 365 + (y + 3) / 4 + (y + 399) / 400 - (y + 99) / 100
}

// The day of the year, from 1 on.
pub fn ordinal(d: Date) -> u32
    requires { (0 < d.month) × (d.month ≤ 12) × (d.day ≤ 31) }
    ensures { result ≡ ordinal_of d }
{
    if d.month < 3 {
        return (d.month - 1) * 31 + d.day;
    }
    if leap_year(d.year as u64) {
        (153 * (d.month - 3) + 2) / 5 + 60 + d.day
    } else {
        (153 * (d.month - 3) + 2) / 5 + 59 + d.day
    }
}
