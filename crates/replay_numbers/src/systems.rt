// Systems of linear equations.
use crate::rooms;

fn same_solution(matrix: &[f64], vector: &[f64], n: usize, answer: &[u8]) -> bool {
    let mut out = [0.0f64; 68];
    let mut scratch = rooms::elimination();
    let given = linear::solve_linear_system(matrix, vector, n, &mut out, &mut scratch);
    answer_lines::result_is(answer, given, |()| {
        answer_lines::same(answer_lines::from(answer, 1), n, &out)
    })
}

// The fields are the list of the right-hand side.
fn with_vector(matrix: &[f64], fields: &[u8], n: usize, answer: &[u8]) -> bool {
    let mut room = [0.0f64; 80];
    answer_lines::fill(answer_lines::from(fields, 1), &mut room);
    let vector = answer_lines::first(&room, answer_lines::field(fields, 0));
    same_solution(matrix, vector, n, answer)
}

// The number of rows, the list of the matrix, the list of the right-hand side.
fn solve(asked: &[u8], answer: &[u8]) -> bool {
    let mut room = rooms::matrix();
    answer_lines::fill(answer_lines::from(asked, 2), &mut room);
    let matrix = answer_lines::first(&room, answer_lines::field(asked, 1));
    let rest = answer_lines::from(answer_lines::from(asked, 2), matrix.len());
    with_vector(matrix, rest, answer_lines::field(asked, 0) as usize, answer)
}

pub(crate) fn agrees(line: &[u8]) -> bool {
    if answer_lines::begins_with(line, b"solve ") {
        return solve(answer_lines::asked(line), answer_lines::answer(line));
    }
    false
}
