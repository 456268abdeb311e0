// Bytes that lie eight to a field.

// Puts the bytes of the list at the first field into the first places of `room`, as many as fit.
pub(crate) fn unpack(fields: &[u8], room: &mut [u8]) {
    let n = answer_lines::field(fields, 0).min(room.len() as u64) as usize;
    answer_lines::fill(answer_lines::from(fields, 1), &mut room[..n]);
}
