// The normal equations of a table of derivatives, damped and solved: the step from one set of parameters to the next, for both
// refinements. Each function does what the definition of its contract in specs/ says. The crates above hand in a `Table`, and meet
// its invariant by proof.
#![tactic(auto)]

ghost use Rattle.std.specs.Prelude.{◌≡◌, ◌+◌, ◌*◌, ◌<◌, ◌≤◌, length, set};
ghost use Rattle.float.specs.Ops.{at};
ghost use Rattle.linear.specs.Elimination.{solution_of};
ghost use Rattle.normal.specs.Normal.{Grid, table_entry, add_product, add_products, add_row, add_right, add_rights, jtj_of, jtr_of};
ghost use Rattle.normal.specs.Step.{
  damp_cell,
  damped,
  scale_of,
  set_scale,
  scales,
  scale_cell,
  scale_row,
  scaled,
  divide_at,
  divided,
  subtract_at,
  subtracted,
  held_to,
  held,
  relative,
  largest_step,
  next,
  stepped_by,
  finish,
  solve_step,
  damped_step,
};
ghost use Rattle.normal.specs.Answers.{outcome, outcome_of};

use refusal::Refusal;
use residuals::PARAMS;

// Places of the elimination of so many parameters.
const ROOM: usize = 4692;

// Where row r, column c of a flat matrix of `rows` rows and n columns is.
pub fn place(rows: usize, n: usize, r: usize, c: usize) -> usize
    requires { (rows ≤ 4144) × (n ≤ 68) × (r < rows) × (c < n) }
    ensures { (result ≡ r * n + c) × (result < rows * n) }
{
    r * n + c
}

// ---- the normal equations

// A set's residuals and the table of their derivatives by its n parameters, row by row.
#[derive(Clone, Copy)]
pub struct Table<'a> {
    pub residuals: &'a [f64],
    pub n: usize,
    pub entries: &'a [f64],
    ghost grid: { Grid (length residuals.now) n entries.now },
    ghost parameters: { 4 ≤ n },
}

impl Table<'_> {
    // The derivative in a row by parameter c.
    pub fn entry(&self, row: usize, c: usize) -> f64
        requires { (row < length self.now.residuals.now) × (c < self.now.n) }
        ensures { result ≡ table_entry self.now.n self.now.entries.now row c }
    {
        self.entries[place(self.residuals.len(), self.n, row, c)]
    }

    fn add_products(&self, row: usize, c1: usize, jt_j: &mut [f64])
        requires { (length jt_j.old ≡ self.now.n * self.now.n) × (row < length self.now.residuals.now) × (c1 < self.now.n) }
        ensures { jt_j.new ≡ add_products self.now.n (table_entry self.now.n self.now.entries.now) row c1 jt_j.old }
    {
        let v = self.entry(row, c1);
        for c2 in 0..self.n {
            let p = place(self.n, self.n, c1, c2);
            jt_j[p] += v * self.entry(row, c2);
        }
    }

    fn add_row(&self, row: usize, jt_j: &mut [f64])
        requires { (length jt_j.old ≡ self.now.n * self.now.n) × (row < length self.now.residuals.now) }
        ensures { jt_j.new ≡ add_row self.now.n (table_entry self.now.n self.now.entries.now) row jt_j.old }
    {
        for c1 in 0..self.n {
            self.add_products(row, c1, jt_j);
        }
    }

    fn add_rights(&self, row: usize, jt_r: &mut [f64])
        requires { (length jt_r.old ≡ self.now.n) × (row < length self.now.residuals.now) }
        ensures { jt_r.new ≡ add_rights self.now.n (table_entry self.now.n self.now.entries.now) (at self.now.residuals.now) row jt_r.old }
    {
        let residual = self.residuals[row];
        for (c1, v) in jt_r.iter_mut().enumerate() {
            *v += self.entry(row, c1) * residual;
        }
    }

    // JᵀJ into jt_j. The reference sums both in one loop; their sums do not meet.
    fn sum_jt_j(&self, jt_j: &mut [f64])
        requires { length jt_j.old ≡ self.now.n * self.now.n }
        ensures { jt_j.new ≡ jtj_of self.now.n (table_entry self.now.n self.now.entries.now) (length self.now.residuals.now) }
    {
        linear::clear(jt_j);
        for row in 0..self.residuals.len() {
            self.add_row(row, jt_j);
        }
    }

    // Jᵀr into jt_r.
    fn sum_jt_r(&self, jt_r: &mut [f64])
        requires { length jt_r.old ≡ self.now.n }
        ensures { jt_r.new ≡ jtr_of self.now.n (table_entry self.now.n self.now.entries.now) (at self.now.residuals.now)
            (length self.now.residuals.now) }
    {
        linear::clear(jt_r);
        for row in 0..self.residuals.len() {
            self.add_rights(row, jt_r);
        }
    }
}

// The same in lent memory, where the derivatives are written.
#[derive(Drop)]
pub struct Derivatives<'a> {
    pub residuals: &'a [f64],
    pub n: usize,
    pub entries: &'a mut [f64],
    ghost grid: { Grid (length residuals.now) n entries.now },
    ghost parameters: { 4 ≤ n },
}

impl Derivatives<'_> {
    // Writes v as the derivative in a row by parameter c.
    pub fn put(&mut self, row: usize, c: usize, v: f64)
        requires { (row < length self.old.residuals.now) × (c < self.old.n) }
        ensures size { self.new.n ≡ self.old.n }
        ensures residuals { self.new.residuals.now ≡ self.old.residuals.now }
        ensures after { self.new.entries.now ≡ set self.old.entries.now (row * self.old.n + c) v }
    {
        let p = place(self.residuals.len(), self.n, row, c);
        self.entries[p] = v;
    }
}

// ---- damping and scaling

fn scale_factor(s: f64) -> f64
    ensures { result ≡ scale_of s }
{
    if s > 1e-15 { s } else { 1.0 }
}

#[tactic(auto, unfolding(crate::specs::Step::divided, crate::specs::Step::divide_at), using(loops::proofs::Laws::loops))]
fn divide(v: &mut [f64], f: &[f64])
    requires { length v.old ≤ length f.now }
    ensures { v.new ≡ divided (length v.old) f.now v.old }
{
    for (k, x) in v.iter_mut().enumerate() {
        *x /= f[k];
    }
}

// The equations JᵀJ δ = Jᵀr of n parameters, in lent memory.
#[derive(Drop)]
struct Equations<'a> {
    n: usize,
    jt_j: &'a mut [f64],
    jt_r: &'a mut [f64],
    ghost grid: { Grid n n jt_j.now },
    ghost right: { length jt_r.now ≡ n },
    ghost parameters: { 4 ≤ n },
}

impl Equations<'_> {
    // The number in row r, column c of the matrix.
    fn entry(&self, r: usize, c: usize) -> f64
        requires { (r < self.now.n) × (c < self.now.n) }
        ensures { result ≡ table_entry self.now.n self.now.jt_j.now r c }
    {
        self.jt_j[place(self.n, self.n, r, c)]
    }

    fn damp(&mut self, lambda: f64)
        ensures size { self.new.n ≡ self.old.n }
        ensures right { self.new.jt_r.now ≡ self.old.jt_r.now }
        ensures after { self.new.jt_j.now ≡ damped self.old.n lambda self.old.jt_j.now }
    {
        for k in 0..self.n {
            let p = place(self.n, self.n, k, k);
            self.jt_j[p] += lambda * self.jt_j[p];
        }
    }

    fn scale_factors(&self, f: &mut [f64])
        requires { length f.old ≡ self.now.n }
        ensures { f.new ≡ scales self.now.n self.now.jt_j.now }
    {
        linear::clear(f);
        for (i, factor) in f.iter_mut().enumerate() {
            *factor = scale_factor(roots::sqrt(self.entry(i, i)));
        }
    }

    fn scale_row(&mut self, f: &[f64], r: usize)
        requires { (length f.now ≡ self.old.n) × (r < self.old.n) }
        ensures size { self.new.n ≡ self.old.n }
        ensures right { self.new.jt_r.now ≡ self.old.jt_r.now }
        ensures after { self.new.jt_j.now ≡ scale_row self.old.n f.now r self.old.jt_j.now }
    {
        for c in 0..self.n {
            let p = place(self.n, self.n, r, c);
            self.jt_j[p] /= f[r] * f[c];
        }
    }

    fn scale(&mut self, f: &[f64])
        requires { length f.now ≡ self.old.n }
        ensures size { self.new.n ≡ self.old.n }
        ensures right { self.new.jt_r.now ≡ self.old.jt_r.now }
        ensures after { self.new.jt_j.now ≡ scaled self.old.n f.now self.old.jt_j.now }
    {
        for r in 0..self.n {
            self.scale_row(f, r);
        }
    }
}

// ---- the new set

#[tactic(auto, unfolding(crate::specs::Step::subtracted, crate::specs::Step::subtract_at), using(loops::proofs::Laws::loops))]
fn subtract(x: &mut [f64], delta: &[f64])
    requires { length delta.now ≤ length x.old }
    ensures { x.new ≡ subtracted (length delta.now) delta.now x.old }
{
    for (k, d) in delta.iter().enumerate() {
        x[k] -= *d;
    }
}

#[tactic(auto, unfolding(crate::specs::Step::held_to))]
fn hold_to(least: f64, most: f64, v: f64) -> f64
    ensures { result ≡ held_to least most v }
{
    float::min(float::max(v, least), most)
}

fn hold(x: &mut [f64])
    requires { 2 ≤ length x.old }
    ensures { x.new ≡ held x.old }
{
    let a = hold_to(solution::LEAST_A, solution::MOST_A, x[0]);
    x[0] = a;
    let i = hold_to(0.0, float::PI, x[1]);
    x[1] = i;
}

fn largest_step(x: &[f64], delta: &[f64]) -> f64
    requires { length delta.now ≤ length x.now }
    ensures { result ≡ largest_step (length delta.now) x.now delta.now }
{
    let mut largest = 0.0;
    for (p, d) in x.iter().zip(delta) {
        let size = float::max(float::abs(*p), 1e-10);
        largest = float::max(largest, float::abs(*d) / size);
    }
    largest
}

// x moved by delta, and the size of the step.
fn take_step(delta: &[f64], x: &mut [f64]) -> f64
    requires { (length x.old ≡ 68) × (4 ≤ length delta.now) × (length delta.now ≤ 68) }
    ensures { next x.new result ≡ stepped_by (length delta.now) x.old delta.now }
{
    subtract(x, delta);
    hold(x);
    largest_step(x, delta)
}

// Where a step leads: to the next set, with the step's size; nowhere, for want of residuals, which the caller tests; or nowhere, by a
// refusal: the solver's 22, or 23, which the residuals gave.
#[derive(Clone, Copy)]
pub enum Step {
    Next(f64),
    Short,
    Refused(Refusal),
}

impl Equations<'_> {
    // The equations solved, and x moved by the solution; in the second refinement it is divided by the scales f.
    fn move_by<const SECOND: bool>(&self, f: &[f64], x: &mut [f64]) -> Step
        requires { (length f.now ≡ self.now.n) × (length x.old ≡ 68) }
        ensures { outcome result x.new ≡ finish SECOND self.now.n f.now x.old (solution_of self.now.n self.now.jt_j.now self.now.jt_r.now) }
    {
        let n = self.n;
        let mut room = [0.0; ROOM];
        let mut delta = [0.0; PARAMS];
        let delta = &mut delta[..n];
        let Ok(()) = linear::solve_linear_system(self.jt_j, self.jt_r, n, delta, &mut room) else {
            return Step::Refused(Refusal::SmallPivot);
        };
        if SECOND {
            divide(delta, f);
        }
        Step::Next(take_step(delta, x))
    }

    // From the damped equations; in the second refinement they are scaled first.
    fn solve_step<const SECOND: bool>(&mut self, x: &mut [f64]) -> Step
        requires { length x.old ≡ 68 }
        ensures { outcome result x.new ≡ solve_step SECOND self.old.n self.old.jt_j.now self.old.jt_r.now x.old }
    {
        let n = self.n;
        let mut factors = [0.0; PARAMS];
        let factors = &mut factors[..n];
        if SECOND {
            self.scale_factors(factors);
            self.scale(factors);
            divide(self.jt_r, factors);
        }
        self.move_by::<SECOND>(factors, x)
    }
}

// A step's answer, with the set that it leads to.
#[derive(Clone, Copy)]
pub struct Stepped {
    pub step: Step,
    pub params: [f64; PARAMS],
}

// From the table of a set's derivatives and its residuals, and the damping lambda: the normal equations, damped and solved.
pub fn damped_step<const SECOND: bool>(table: &Table, lambda: f64, params: [f64; PARAMS]) -> Stepped
    ensures { outcome_of result ≡ damped_step SECOND (length table.now.residuals.now) table.now.n
        (table_entry table.now.n table.now.entries.now) (at table.now.residuals.now) lambda params }
{
    let n = table.n;
    let cells = n * n;
    let mut jt_j = [0.0; 4624];
    let jt_j = &mut jt_j[..cells];
    table.sum_jt_j(jt_j);
    let mut jt_r = [0.0; PARAMS];
    let jt_r = &mut jt_r[..n];
    table.sum_jt_r(jt_r);
    let mut equations = Equations { n, jt_j, jt_r };
    equations.damp(lambda);
    let mut next = params;
    let step = equations.solve_step::<SECOND>(&mut next);
    Stepped { step, params: next }
}
