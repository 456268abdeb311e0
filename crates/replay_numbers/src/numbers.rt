// Roots and the other functions of floats and words, each by its name.

// A function of one float.
fn of_one(line: &[u8], x: f64, answer: &[u8]) -> bool {
    if answer_lines::begins_with(line, b"sqrt ") {
        return answer_lines::float_is(answer, 0, roots::sqrt(x));
    }
    if answer_lines::begins_with(line, b"cbrt ") {
        return answer_lines::float_is(answer, 0, roots::cube::cbrt(x));
    }
    if answer_lines::begins_with(line, b"abs ") {
        return answer_lines::float_is(answer, 0, float::abs(x));
    }
    if answer_lines::begins_with(line, b"floor ") {
        return answer_lines::float_is(answer, 0, float::floor(x));
    }
    if answer_lines::begins_with(line, b"round ") {
        return answer_lines::float_is(answer, 0, float::round(x));
    }
    if answer_lines::begins_with(line, b"signum ") {
        return answer_lines::float_is(answer, 0, float::signum(x));
    }
    if answer_lines::begins_with(line, b"to_degrees ") {
        return answer_lines::float_is(answer, 0, float::to_degrees(x));
    }
    if answer_lines::begins_with(line, b"to_radians ") {
        return answer_lines::float_is(answer, 0, float::to_radians(x));
    }
    if answer_lines::begins_with(line, b"sin ") {
        return answer_lines::float_is(answer, 0, float::trig::sin(x));
    }
    if answer_lines::begins_with(line, b"cos ") {
        return answer_lines::float_is(answer, 0, float::trig::cos(x));
    }
    if answer_lines::begins_with(line, b"ln ") {
        return answer_lines::float_is(answer, 0, float::log::ln(x));
    }
    if answer_lines::begins_with(line, b"to_u64 ") {
        return answer_lines::field(answer, 0) == float::cast::saturating_f64_to_u64(x);
    }
    if answer_lines::begins_with(line, b"to_i64 ") {
        return answer_lines::signed(answer, 0) == float::cast::saturating_f64_to_i64(x);
    }
    false
}

// A function of two floats.
fn of_two(line: &[u8], x: f64, y: f64, answer: &[u8]) -> bool {
    if answer_lines::begins_with(line, b"max ") {
        return answer_lines::float_is(answer, 0, float::max(x, y));
    }
    if answer_lines::begins_with(line, b"min ") {
        return answer_lines::float_is(answer, 0, float::min(x, y));
    }
    if answer_lines::begins_with(line, b"rem_euclid ") {
        return answer_lines::float_is(answer, 0, float::rem_euclid(x, y));
    }
    false
}

pub(crate) fn agrees(line: &[u8]) -> bool {
    let asked = answer_lines::asked(line);
    let answer = answer_lines::answer(line);
    let first = answer_lines::field(asked, 0);
    let second = answer_lines::field(asked, 1);
    let x = answer_lines::hex::float(first);
    if answer_lines::begins_with(line, b"power ") {
        return answer_lines::float_is(answer, 0, float::power(x, second));
    }
    if answer_lines::begins_with(line, b"wrapping_mul ") {
        return answer_lines::field(answer, 0) == float::word::wrapping_mul(first, second);
    }
    of_one(line, x, answer) || of_two(line, x, answer_lines::hex::float(second), answer)
}
