// The Earth's rotation at a moment, worked out or read from a table that specs/Turns.antt describes. Inner functions: they ask
// for moments in range and tables that hold what they should.
ghost use Rattle.std.specs.Prelude.{◌≡◌, ◌+◌, ◌*◌, ◌≤◌, ◌<◌, length, get_or};
ghost use Rattle.std.specs.Float.{nan};
ghost use Rattle.frame.specs.Rotation.{turn_at};
ghost use Rattle.moment.specs.Range.{Within};
ghost use Rattle.moment.specs.Sample.{Timed};
ghost use Rattle.approach.specs.Turns.{listed, reach, entries, Held, Tabled, put_turn, Entered, window_moment, moments, PassWritten, SetWritten};

use float::trig::SinCos;
use moment::Instant;
use pass_set::{Pass, PassSet};

// The closest search reaches at most 600 + 20 + 2 seconds to both sides of an observed moment.
pub const REACH: u64 = 622;

// How many whole seconds that is: a pass's entries in a table.
pub const WINDOW: usize = 1245;

// A pass set with its table of rotations, or with none.
#[derive(Clone, Copy)]
pub struct Prepared<'a> {
    pub set: PassSet<'a>,
    pub table: Option<&'a [f64]>,
    ghost tabled: { Tabled (listed table) (get_or set.centers.now 0 nan) set.counts.now set.times.now set.freqs.now },
}

// By entry j of a table, if there is one.
pub fn turn_at(table: Option<&[f64]>, j: usize, t: Instant) -> SinCos
    requires { Within reach t.secs t.nanos × Held (listed table) j t.secs t.nanos }
    ensures { result ≡ turn_at t.secs t.nanos }
{
    match table {
        None => frame::rotation(frame::jd_at(t)),
        Some(turns) => SinCos {
            sin: turns[2 * j],
            cos: turns[2 * j + 1],
        },
    }
}

fn put_turn(table: &mut [f64], j: usize, t: Instant)
    requires { Within reach t.secs t.nanos × (2 * j + 1 < length table.old) }
    ensures { table.new ≡ put_turn table.old j t.secs t.nanos }
{
    let turn = frame::rotation(frame::jd_at(t));
    table[2 * j] = turn.sin;
    table[2 * j + 1] = turn.cos;
}

// The seconds from 622 before t to 622 after, into the entries from `at` on.
fn fill_window(table: &mut [f64], at: usize, t: Instant)
    requires { Within 0 t.secs t.nanos × (2 * (at + entries) ≤ length table.old) }
    ensures { Entered (window_moment t) at entries table.old table.new }
{
    let base = t.secs - REACH;
    let nanos = t.nanos;
    for j in 0..WINDOW {
        let secs = base + j as u64;
        put_turn(table, at + j, Instant { secs, nanos });
    }
}

// The samples' moments, into the entries from `at` on.
fn fill_samples(table: &mut [f64], at: usize, times: &[i64])
    requires { Timed times.now × (2 * (at + length times.now) ≤ length table.old) }
    ensures { Entered (moments times.now) at (length times.now) table.old table.new }
{
    for (k, &time) in times.iter().enumerate() {
        put_turn(table, at + k, moment::sample::of_nanos(time));
    }
}

// The window of one pass, around its sample closest to the centre; an empty pass has none.
fn fill_pass(table: &mut [f64], at: usize, center: f64, pass: &Pass)
    requires { (at ≤ 100000) × (2 * (at + entries) ≤ length table.old) }
    ensures { PassWritten at center pass.now.times.now pass.now.freqs.now table.old table.new }
{
    if pass.freqs.len() == 0 {
        return;
    }
    fill_window(table, at, crate::pca::obs_pca_time(pass, center));
}

// The table of a pass set: 1,245 entries a pass and one a sample, of two numbers each.
pub fn fill(set: &PassSet, table: &mut [f64])
    requires { 2 * (entries * length set.now.counts.now + length set.now.times.now) ≤ length table.old }
    ensures { SetWritten set.now.counts.now set.now.times.now set.now.freqs.now set.now.centers.now table.old table.new }
{
    if set.counts.len() == 0 {
        return;
    }
    let first = set.centers[0];
    let mut k = 0usize;
    for (p, &count) in set.counts.iter().enumerate() {
        let pass = set.pass(p, k);
        fill_pass(table, WINDOW * p, first, &pass);
        k += count as usize;
    }
    fill_samples(table, WINDOW * set.counts.len(), set.times);
}
