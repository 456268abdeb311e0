// Dates, rotation of the Earth, motion and frequencies.
use frame::State;
use orbit::doppler::DfPoly;

fn same_state(fields: &[u8], s: State) -> bool {
    answer_lines::elements_are(fields, &[s.x, s.y, s.z, s.vx, s.vy, s.vz])
}

fn jd(asked: &[u8], answer: &[u8]) -> bool {
    crate::same_number(answer, frame::datetime_to_jd(answer_lines::moment(asked)))
}

fn teme(asked: &[u8], answer: &[u8]) -> bool {
    let s = frame::teme_to_ecef(
        answer_lines::float(asked, 0),
        answer_lines::vec3(answer_lines::from(asked, 1)),
        answer_lines::vec3(answer_lines::from(asked, 4)),
    );
    same_state(answer, s)
}

fn prop(asked: &[u8], answer: &[u8]) -> bool {
    let a = orbit::propagate_ecef_at_time(
        answer_lines::float(asked, 0),
        answer_lines::float(asked, 1),
        answer_lines::float(asked, 2),
        answer_lines::float(asked, 3),
        answer_lines::moment(answer_lines::from(asked, 4)),
        answer_lines::moment(answer_lines::from(asked, 6)),
        answer_lines::moment(answer_lines::from(asked, 8)),
    );
    answer_lines::result_is(answer, a, |s| same_state(answer_lines::from(answer, 1), s))
}

fn pred(asked: &[u8], answer: &[u8]) -> bool {
    let a = orbit::doppler::predict_frequency(
        answer_lines::float(asked, 0),
        answer_lines::float(asked, 1),
        answer_lines::float(asked, 2),
        answer_lines::float(asked, 3),
        answer_lines::moment(answer_lines::from(asked, 4)),
        answer_lines::moment(answer_lines::from(asked, 6)),
        answer_lines::float(asked, 8),
        answer_lines::float(asked, 9),
        answer_lines::float(asked, 10),
        answer_lines::vec3(answer_lines::from(asked, 11)),
    );
    crate::same_number(answer, a)
}

fn poly(asked: &[u8], answer: &[u8]) -> bool {
    let a = orbit::doppler::predict_frequency_poly(
        answer_lines::float(asked, 0),
        answer_lines::float(asked, 1),
        answer_lines::float(asked, 2),
        answer_lines::float(asked, 3),
        answer_lines::moment(answer_lines::from(asked, 4)),
        answer_lines::moment(answer_lines::from(asked, 6)),
        answer_lines::float(asked, 8),
        DfPoly(
            answer_lines::float(asked, 9),
            answer_lines::float(asked, 10),
            answer_lines::float(asked, 11),
        ),
        answer_lines::moment(answer_lines::from(asked, 12)),
        answer_lines::float(asked, 14),
        answer_lines::vec3(answer_lines::from(asked, 15)),
    );
    crate::same_number(answer, a)
}

pub(crate) fn agrees(line: &[u8]) -> bool {
    let asked = answer_lines::asked(line);
    let answer = answer_lines::answer(line);
    if answer_lines::begins_with(line, b"jd ") {
        return jd(asked, answer);
    }
    if answer_lines::begins_with(line, b"teme ") {
        return teme(asked, answer);
    }
    if answer_lines::begins_with(line, b"prop ") {
        return prop(asked, answer);
    }
    if answer_lines::begins_with(line, b"pred ") {
        return pred(asked, answer);
    }
    if answer_lines::begins_with(line, b"poly ") {
        return poly(asked, answer);
    }
    false
}
