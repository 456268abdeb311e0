// The generator, the digit maps and the fractional differences.
use monna::rng::{Draw, SimpleRng};

// Whether the answer is the next state and the number drawn.
fn same_draw(answer: &[u8], d: Draw) -> bool {
    let next = d.rng;
    answer_lines::field(answer, 0) == next.state && answer_lines::float_is(answer, 1, d.value)
}

fn history(asked: &[u8], answer: &[u8]) -> bool {
    let mut room = [0.0f64; 100];
    let mut out = [0.0f64; 64];
    answer_lines::fill(answer_lines::from(asked, 1), &mut room);
    let x = answer_lines::first(&room, answer_lines::field(asked, 0));
    let n = x.len();
    let given = monna::compute_fractional_difference_history(x, &mut out);
    answer_lines::result_is(answer, given, |()| {
        answer_lines::same(answer_lines::from(answer, 1), n, &out)
    })
}

fn normal(asked: &[u8], answer: &[u8]) -> bool {
    let place = [
        answer_lines::float(asked, 0),
        answer_lines::float(asked, 1),
        answer_lines::float(asked, 2),
    ];
    let x = monna::map_to_normalized_search_space(place);
    answer_lines::same(answer, 15, &x)
}

pub(crate) fn agrees(line: &[u8]) -> bool {
    let asked = answer_lines::asked(line);
    let answer = answer_lines::answer(line);
    let first = answer_lines::field(asked, 0);
    let second = answer_lines::field(asked, 1);
    let third = answer_lines::field(asked, 2);
    if answer_lines::begins_with(line, b"draw ") {
        return same_draw(answer, SimpleRng::new(first).next_f64());
    }
    if answer_lines::begins_with(line, b"gaussian ") {
        return same_draw(answer, SimpleRng::new(first).next_gaussian());
    }
    if answer_lines::begins_with(line, b"monna ") {
        return crate::same_number(answer, monna::monna_map(first, second));
    }
    if answer_lines::begins_with(line, b"unmonna ") {
        let x = answer_lines::hex::float(first);
        let given = monna::inverse_monna_map(x, second, third as usize);
        return answer_lines::result_is(answer, given, |v| answer_lines::field(answer, 1) == v);
    }
    if answer_lines::begins_with(line, b"padic ") {
        return crate::same_number(answer, monna::p_adic_distance(first, second, third));
    }
    if answer_lines::begins_with(line, b"history ") {
        return history(asked, answer);
    }
    if answer_lines::begins_with(line, b"normal ") {
        return normal(asked, answer);
    }
    false
}
