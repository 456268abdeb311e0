// Elimination.
ghost use Rattle.exports.specs.Systems.{SolvesTo};

#[unsafe(no_mangle)]
pub extern "C" fn wisvalom_solve_linear_system(
    matrix: &[f64],
    vector: &[f64],
    n: usize,
    out: &mut [f64],
    scratch: &mut [f64],
) -> u32
    ensures { SolvesTo n matrix.now vector.now out.old out.new
        scratch.old scratch.new result }
{
    refusal::status(linear::solve_linear_system(matrix, vector, n, out, scratch))
}
