// What follows a trial of either refinement: the table of derivatives, by forward differences, and the damped step. Each
// function does what the definition of its contract in specs/ says; a loop's body is a function of its own.
// All but `advance` are this crate's own, and `advance` asks what the fit has checked.
#![tactic(auto)]

ghost use Rattle.std.specs.Prelude.{◌≡◌, ◌+◌, ◌*◌, ◌<◌, ◌≤◌, length};
ghost use Rattle.loops.specs.Loop.{for, try};
ghost use Rattle.residuals.specs.Residuals.{rows_of, residuals};
ghost use Rattle.residuals.specs.Answers.{passes_in, Filled};
ghost use Rattle.refine.specs.Jacobian.{bias_eps, eps_of, perturbed_of, put_entry, column_of};
ghost use Rattle.refine.specs.Advance.{advance_of, cells_of, Ready, Advances};

use normal::{Derivatives, Step, Stepped, Table};
use refusal::Refusal;
use residuals::observations::Observations;
use residuals::{PARAMS, Point, ROWS};

fn bias_eps(j: usize) -> f64
    ensures { result ≡ bias_eps j }
{
    match j {
        0 => 1e-3,
        1 => 1e-2,
        2 => 1e-4,
        _ => 1e-6,
    }
}

fn param_eps<const SECOND: bool>(k: usize) -> f64
    ensures { result ≡ eps_of SECOND k }
{
    match k {
        0 => 10.0,
        1..=3 => 1e-6,
        _ if SECOND => bias_eps((k - 4) % 4),
        _ => bias_eps((k - 4) % 2),
    }
}

fn perturbed(x: [f64; PARAMS], k: usize, eps: f64) -> [f64; PARAMS]
    requires { k < 68 }
    ensures { result ≡ perturbed_of x k eps }
{
    let mut y = x;
    y[k] = y[k] + eps;
    y
}

// Column k of the table from the residuals of the moved set.
fn put_column(table: &mut Derivatives, column: &[f64], eps: f64, k: usize)
    requires { (length column.now ≡ length table.old.residuals.now) × (k < table.old.n) }
    ensures size { table.new.n ≡ table.old.n }
    ensures residuals { table.new.residuals.now ≡ table.old.residuals.now }
    ensures after { table.new.entries.now ≡ for 0 (length table.old.residuals.now)
        (put_entry table.old.n eps k table.old.residuals.now column.now) table.old.entries.now }
{
    let r = table.residuals;
    for row in 0..r.len() {
        table.put(row, k, (column[row] - r[row]) / eps);
    }
}

// Column k of the table, or the refusal of the moved set's residuals.
fn jacobian_column<const SECOND: bool>(
    p: &Point<SECOND>,
    obs: &Observations,
    k: usize,
    table: &mut Derivatives,
) -> Result<(), Refusal>
    requires { (length table.old.residuals.now ≡ rows_of SECOND (length obs.now.times.now) (length obs.now.counts.now))
        × (k < table.old.n) }
    ensures size { table.new.n ≡ table.old.n }
    ensures residuals { table.new.residuals.now ≡ table.old.residuals.now }
    ensures filled { Filled result table.new.entries.now (column_of (eps_of SECOND) (residuals SECOND obs.now.station
        (passes_in obs.now)) p.now.params table.old.residuals.now (length table.old.residuals.now) table.old.n k
        table.old.entries.now) }
{
    let eps = param_eps::<SECOND>(k);
    let moved = Point {
        params: perturbed(p.params, k, eps),
    };
    let mut column = [0.0; ROWS];
    residuals::residuals_into::<SECOND>(&moved, obs, &mut column)?;
    let m = table.residuals.len();
    put_column(table, &column[..m], eps, k);
    Ok(())
}

// The table, column by column, or the first refusal of a moved set's residuals.
fn jacobian<const SECOND: bool>(
    p: &Point<SECOND>,
    obs: &Observations,
    table: &mut Derivatives,
) -> Result<(), Refusal>
    requires { length table.old.residuals.now ≡ rows_of SECOND (length obs.now.times.now) (length obs.now.counts.now) }
    ensures size { table.new.n ≡ table.old.n }
    ensures residuals { table.new.residuals.now ≡ table.old.residuals.now }
    ensures filled { Filled result table.new.entries.now (try 0 table.old.n (column_of (eps_of SECOND) (residuals SECOND
        obs.now.station (passes_in obs.now)) p.now.params table.old.residuals.now (length table.old.residuals.now)
        table.old.n) table.old.entries.now) }
{
    for k in 0..table.n {
        jacobian_column(p, obs, k, table)?;
    }
    Ok(())
}

// Table and step from the set p, its residuals r and the damping lambda. The table lies in the first places of scratch; what
// is left in them is not promised, since the fit clears it.
pub fn advance<const SECOND: bool>(
    p: &Point<SECOND>,
    obs: &Observations,
    lambda: f64,
    r: &[f64],
    scratch: &mut [f64],
) -> Stepped
    requires { Ready SECOND obs.now.station (passes_in obs.now) p.now.params r.now (length scratch.old) }
    ensures { Advances (cells_of SECOND (passes_in obs.now))
        (advance_of SECOND obs.now.station (passes_in obs.now) lambda p.now.params) scratch.old scratch.new result }
{
    let params = p.params;
    let n = residuals::place_of::<SECOND>(obs.counts.len());
    let cells = r.len() * n;
    let mut derivatives = Derivatives {
        residuals: r,
        n,
        entries: &mut scratch[..cells],
    };
    if let Err(far) = jacobian(p, obs, &mut derivatives) {
        return Stepped {
            step: Step::Refused(far),
            params,
        };
    }
    let Derivatives { entries, .. } = derivatives;
    let table = Table {
        residuals: r,
        n,
        entries,
    };
    normal::damped_step::<SECOND>(&table, lambda, params)
}
