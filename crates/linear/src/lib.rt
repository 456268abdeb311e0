// Linear systems by Gaussian elimination with partial pivoting, on flat lent slices. Each function does what the definition
// of the same name in specs/Elimination.antt says. `solve_linear_system` asks nothing of its caller; the functions above it
// are its own, and it meets what they require.
#![tactic(auto)]

ghost use Rattle.std.specs.Prelude.{◌≡◌, ◌+◌, ◌*◌, ◌<◌, ◌≤◌, length, replicate};
ghost use Rattle.float.specs.Ops.{bits, at};
ghost use Rattle.loops.specs.Loop.{for, rev};
ghost use Rattle.linear.specs.Elimination.{
  Sized,
  cell_of,
  larger_pivot,
  pivot_row,
  swap_rows,
  eliminate_row,
  eliminate_below,
  reduce_column,
  forward_elimination,
  add_term,
  substitute_row,
  augment_row,
  solution_of,
};
ghost use Rattle.linear.specs.Answer.{Solves, Reduces, Eliminates};

use refusal::Refusal;

// The augmented matrix: n rows of n + 1 columns, one after the other.
#[derive(Drop)]
struct Augmented<'a> {
    entries: &'a mut [f64],
    n: usize,
    ghost sized: { Sized n entries.now },
}

impl Augmented<'_> {
    // Where row r, column c is.
    fn cell(&self, r: usize, c: usize) -> usize
        requires { (r < self.now.n) × (c ≤ self.now.n) }
        ensures { (result ≡ cell_of self.now.n r c) × (result < self.now.n * (self.now.n + 1)) }
    {
        r * (self.n + 1) + c
    }

    // The number in row r, column c.
    fn entry(&self, r: usize, c: usize) -> f64
        requires { (r < self.now.n) × (c ≤ self.now.n) }
        ensures { result ≡ at self.now.entries.now (cell_of self.now.n r c) }
    {
        self.entries[self.cell(r, c)]
    }

    fn larger_pivot(&self, i: usize, r: usize, m: usize) -> usize
        requires { (i < self.now.n) × (r < self.now.n) × (m < self.now.n) }
        ensures { (result ≡ larger_pivot self.now.n self.now.entries.now i r m) × (result < self.now.n) }
    {
        if float::abs(self.entry(r, i)) > float::abs(self.entry(m, i)) {
            r
        } else {
            m
        }
    }

    fn pivot_row(&self, i: usize) -> usize
        requires { i < self.now.n }
        ensures { (result ≡ pivot_row self.now.n self.now.entries.now i) × (result < self.now.n) }
    {
        let mut m = i;
        for r in i + 1..self.n {
            m = self.larger_pivot(i, r, m);
        }
        m
    }

    fn swap_rows(&mut self, i: usize, m: usize)
        requires { (i < self.old.n) × (m < self.old.n) }
        ensures size { self.new.n ≡ self.old.n }
        ensures after { self.new.entries.now ≡ swap_rows self.old.n i m self.old.entries.now }
    {
        for c in 0..self.n + 1 {
            let p = self.cell(i, c);
            let q = self.cell(m, c);
            self.entries.swap(p, q);
        }
    }

    fn eliminate_row(&mut self, i: usize, r: usize)
        requires { (i < self.old.n) × (r < self.old.n) }
        ensures size { self.new.n ≡ self.old.n }
        ensures after { self.new.entries.now ≡ eliminate_row self.old.n i r self.old.entries.now }
    {
        let factor = self.entry(r, i) / self.entry(i, i);
        for c in i..self.n + 1 {
            let p = self.cell(r, c);
            self.entries[p] -= factor * self.entry(i, c);
        }
    }

    fn eliminate_below(&mut self, i: usize)
        requires { i < self.old.n }
        ensures size { self.new.n ≡ self.old.n }
        ensures after { self.new.entries.now ≡ eliminate_below self.old.n i self.old.entries.now }
    {
        for r in i + 1..self.n {
            self.eliminate_row(i, r);
        }
    }

    // Refused, and nothing is eliminated, where the pivot is too small. A NaN is not below any number, so it passes on.
    fn reduce_column(&mut self, i: usize) -> Result<(), Refusal>
        requires { i < self.old.n }
        ensures size { self.new.n ≡ self.old.n }
        ensures after { Reduces result self.new.entries.now (reduce_column self.old.n i self.old.entries.now) }
    {
        let m = self.pivot_row(i);
        self.swap_rows(i, m);
        let pivot = self.entry(i, i);
        if float::abs(pivot) < 1e-12 {
            return Err(Refusal::SmallPivot);
        }
        self.eliminate_below(i);
        Ok(())
    }

    fn forward_elimination(&mut self) -> Result<(), Refusal>
        ensures size { self.new.n ≡ self.old.n }
        ensures after { Reduces result self.new.entries.now (forward_elimination self.old.n self.old.entries.now) }
    {
        for i in 0..self.n {
            self.reduce_column(i)?;
        }
        Ok(())
    }

    fn known_terms(&self, sol: &[f64], r: usize) -> f64
        requires { (length sol.now ≡ self.now.n) × (r < self.now.n) }
        ensures { result ≡ for (r + 1) self.now.n (add_term self.now.n self.now.entries.now sol.now r) (bits 0) }
    {
        let mut s = 0.0;
        for c in r + 1..self.n {
            s += self.entry(r, c) * sol[c];
        }
        s
    }

    fn substitute_row(&self, sol: &mut [f64], r: usize)
        requires { (length sol.old ≡ self.now.n) × (r < self.now.n) }
        ensures { sol.new ≡ substitute_row self.now.n self.now.entries.now r sol.old }
    {
        let s = self.known_terms(sol, r);
        sol[r] = (self.entry(r, self.n) - s) / self.entry(r, r);
    }

    fn back_substitution(&self, sol: &mut [f64])
        requires { length sol.old ≡ self.now.n }
        ensures { sol.new ≡ rev self.now.n (substitute_row self.now.n self.now.entries.now) sol.old }
    {
        for r in (0..self.n).rev() {
            self.substitute_row(sol, r);
        }
    }

    // Entry by entry: the library's copy of a slice comes out as a call of C's `memmove`, a name that whoever links the archives
    // would have to bring.
    fn augment_row(&mut self, m: &[f64], v: &[f64], r: usize)
        requires { (length m.now ≡ self.old.n * self.old.n) × (length v.now ≡ self.old.n) × (r < self.old.n) }
        ensures size { self.new.n ≡ self.old.n }
        ensures after { self.new.entries.now ≡ augment_row self.old.n m.now v.now r self.old.entries.now }
    {
        let n = self.n;
        let k = r * n;
        for (c, &entry) in m[k..k + n].iter().enumerate() {
            let p = self.cell(r, c);
            self.entries[p] = entry;
        }
        let last = self.cell(r, n);
        self.entries[last] = v[r];
    }

    fn augment(&mut self, m: &[f64], v: &[f64])
        requires { (length m.now ≡ self.old.n * self.old.n) × (length v.now ≡ self.old.n) }
        ensures size { self.new.n ≡ self.old.n }
        ensures after { self.new.entries.now ≡ for 0 self.old.n (augment_row self.old.n m.now v.now) self.old.entries.now }
    {
        for r in 0..self.n {
            self.augment_row(m, v, r);
        }
    }
}

// Zeros, all of them.
pub fn clear(s: &mut [f64])
    ensures { s.new ≡ replicate (length s.old) (bits 0) }
{
    s.fill(0.0);
}

// Writes the solution to sol, with a as the room to work in. Refused, and sol as it was, where a pivot is too small.
fn eliminate(m: &[f64], v: &[f64], n: usize, sol: &mut [f64], a: &mut [f64]) -> Result<(), Refusal>
    requires { Sized n a.old × (length m.now ≡ n * n) × (length v.now ≡ n) × (length sol.old ≡ n) }
    ensures { Eliminates result sol.old sol.new (solution_of n m.now v.now) }
{
    clear(a);
    let mut system = Augmented { entries: a, n };
    system.augment(m, v);
    system.forward_elimination()?;
    clear(sol);
    system.back_substitution(sol);
    Ok(())
}

// Solves matrix x = vector, of n rows that lie one after the other in matrix. The solution goes to the first places of out;
// scratch has n×(n + 1) places to work in. Refused: 5, the sizes disagree; 12, above 68 rows; 21, out or scratch is too
// short; 22, a pivot is below 1e-12 in size.
pub fn solve_linear_system(
    matrix: &[f64],
    vector: &[f64],
    n: usize,
    out: &mut [f64],
    scratch: &mut [f64],
) -> Result<(), Refusal>
    ensures { Solves n matrix.now vector.now out.old out.new
        scratch.old scratch.new result }
{
    if vector.len() != n || n.checked_mul(n) != Some(matrix.len()) {
        return Err(Refusal::Sizes);
    }
    if n > 68 {
        return Err(Refusal::Limits);
    }
    let room = n * (n + 1);
    if out.len() < n || scratch.len() < room {
        return Err(Refusal::ShortMemory);
    }
    let answer = eliminate(matrix, vector, n, &mut out[..n], &mut scratch[..room]);
    clear(scratch);
    answer
}
