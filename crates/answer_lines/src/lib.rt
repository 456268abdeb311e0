// Reads lines of stored answers: a word, fields of 16 hexadecimal digits each after a blank, ` =`, fields. What stands past a line's end
// counts as 0.
#![tactic(auto)]

pub mod hex;

ghost use Rattle.std.specs.Prelude.{◌≡◌, ℕ, ◌+◌, ◌%◌, ◌≤◌, Bool, List, length, take, drop, eqb, pos};
ghost use Rattle.std.specs.Float.{nan, binary64};
ghost use Rattle.std.specs.Float.Ieee.{to_bits};
ghost use Rattle.std.specs.Int.{w64};
ghost use Rattle.std.proofs.Common.{of_z};
ghost use Rattle.answer_lines.specs.Lines.{first_place, begins_with, line_word, occurs, asked_fields, answer_fields, fields_from, after_list, field_at, float_field, count_field, signed_field, packed_byte, every, same_list, Tells, FilledBy, freq_list, ReadsSet};

use frame::Vec3;
use moment::Moment;
use refusal::Refusal;

// How many bytes stand before the first `byte`: all, where there is none.
pub fn find(text: &[u8], byte: u8) -> usize
    ensures { (result ≡ first_place byte text.now) × (result ≤ length text.now) }
{
    text.iter().position(|c| *c == byte).unwrap_or(text.len())
}

// Where the line that begins at a place ends: at its line feed, or the text's end. The loops over a text's lines meet the `requires`
// by proof.
pub fn line_end(text: &[u8], at: usize) -> usize
    requires { at ≤ length text.now }
    ensures { (result ≡ at + first_place 10 (drop at text.now)) × (result ≤ length text.now) }
{
    at + find(after(text, at), b'\n')
}

pub fn begins_with(line: &[u8], name: &[u8]) -> bool
    ensures { result ≡ begins_with name.now line.now }
{
    line.starts_with(name)
}

// The word that the line begins with.
pub fn word(line: &[u8]) -> &[u8]
    ensures { result.now ≡ line_word line.now }
{
    let end = find(line, b' ');
    &line[..end]
}

// Whether the name stands anywhere in the table.
pub fn occurs_in(table: &[u8], name: &[u8]) -> bool
    ensures { result ≡ occurs name.now table.now }
{
    (0..table.len()).any(|i| begins_with(after(table, i), name))
}

// The fields that are asked.
pub fn asked(line: &[u8]) -> &[u8]
    ensures { result.now ≡ asked_fields line.now }
{
    let end = find(line, b'=');
    let before = &line[..end];
    let start = find(before, b' ');
    &before[start..]
}

// The fields of the answer.
pub fn answer(line: &[u8]) -> &[u8]
    ensures { result.now ≡ answer_fields line.now }
{
    after(line, find(line, b'=') + 1)
}

// What stands after the first n bytes.
pub fn after(line: &[u8], n: usize) -> &[u8]
    ensures { result.now ≡ drop n line.now }
{
    &line[n.min(line.len())..]
}

// The fields from field k on.
pub fn from(fields: &[u8], k: usize) -> &[u8]
    ensures { result.now ≡ fields_from k fields.now }
{
    after(fields, k.saturating_mul(17))
}

// Field k, counted from 0.
pub fn field(fields: &[u8], k: usize) -> u64
    ensures { result ≡ field_at fields.now k }
{
    hex::word(from(fields, k), 1)
}

// The fields after the list that begins at the first field.
pub fn after_list(fields: &[u8]) -> &[u8]
    ensures { result.now ≡ after_list fields.now }
{
    from(fields, (field(fields, 0) as usize).saturating_add(1))
}

pub fn float(fields: &[u8], k: usize) -> f64
    ensures { result ≡ float_field fields.now k }
{
    hex::float(field(fields, k))
}

// The number whose two's complement is field k.
pub fn signed(fields: &[u8], k: usize) -> i64
    ensures { of_z w64 result ≡ field_at fields.now k }
{
    field(fields, k).cast_signed()
}

// The moment of the first two fields, of the second its last 32 bits.
#[tactic(auto, unfolding(crate::specs::Lines::count_field))]
pub fn moment(fields: &[u8]) -> Moment
    ensures { (of_z w64 result.seconds ≡ field_at fields.now 0) × (result.nanos ≡ field_at fields.now 1 % 4294967296) }
{
    Moment {
        seconds: signed(fields, 0),
        nanos: u32::read(fields, 1),
    }
}

// The place or velocity of the first three fields.
pub fn vec3(fields: &[u8]) -> Vec3
    ensures { result ≡ record { x = float_field fields.now 0; y = float_field fields.now 1; z = float_field fields.now 2 } }
{
    Vec3 {
        x: float(fields, 0),
        y: float(fields, 1),
        z: float(fields, 2),
    }
}

// Whether field k is this float: any NaN is any other, zeros keep their sign.
pub fn float_is(fields: &[u8], k: usize, x: f64) -> bool
    ensures { result ≡ eqb (field_at fields.now k) (to_bits binary64 x) }
{
    field(fields, k) == hex::bits(x)
}

// Whether an answer begins with this refusal, 0 being none.
pub fn refused(answer: &[u8], refusal: u32) -> bool
    ensures { result ≡ eqb (field_at answer.now 0) refusal }
{
    field(answer, 0) == refusal as u64
}

// Whether an answer is this result: its refusal, or none and a value of which `same` holds.
pub fn result_is<T: Copy, F: FnOnce(T) -> bool>(
    answer: &[u8],
    given: Result<T, Refusal>,
    same: F,
) -> bool
    requires { F.IsAlwaysCallable same }
    ensures { Tells (F.post same) (field_at answer.now 0) given result }
{
    match given {
        Ok(value) => field(answer, 0) == 0 && same(value),
        Err(r) => refused(answer, r.number()),
    }
}

// What lists of stored answers are of: element i of the fields, and whether a value is that element.
pub trait Element: Copy {
    // What a list is said to have past its end.
    ghost none: { Self };

    // What the two functions answer, by the fields and the element's place.
    ghost read: { List ℕ → ℕ → Self };

    ghost is: { List ℕ → ℕ → Self → Bool };

    fn read(fields: &[u8], i: usize) -> Self
        ensures { result ≡ read fields.now i };

    fn is(self, fields: &[u8], i: usize) -> bool
        ensures { result ≡ is fields.now i self };
}

// A byte, of bytes that lie eight to a field.
impl Element for u8 {
    ghost none = { 0 };

    ghost read = { packed_byte };

    ghost is = { λ fields i b. eqb b (packed_byte fields i) };

    #[tactic(auto, unfolding(crate::specs::Lines::packed_byte))]
    fn read(fields: &[u8], i: usize) -> u8
        ensures { result ≡ packed_byte fields.now i }
    {
        ((field(fields, i / 8) >> (56 - 8 * (i % 8))) % 256) as u8
    }

    fn is(self, fields: &[u8], i: usize) -> bool
        ensures { result ≡ eqb self (packed_byte fields.now i) }
    {
        self == u8::read(fields, i)
    }
}

// A count: the last 32 bits of a field are read, and all of it is compared.
impl Element for u32 {
    ghost none = { 0 };

    ghost read = { count_field };

    ghost is = { λ fields i n. eqb n (field_at fields i) };

    #[tactic(auto, unfolding(crate::specs::Lines::count_field))]
    fn read(fields: &[u8], i: usize) -> u32
        ensures { result ≡ count_field fields.now i }
    {
        (field(fields, i) % 4294967296) as u32
    }

    fn is(self, fields: &[u8], i: usize) -> bool
        ensures { result ≡ eqb self (field_at fields.now i) }
    {
        self as u64 == field(fields, i)
    }
}

// A number, which is all of a field.
impl Element for u64 {
    ghost none = { 0 };

    ghost read = { field_at };

    ghost is = { λ fields i n. eqb n (field_at fields i) };

    fn read(fields: &[u8], i: usize) -> u64
        ensures { result ≡ field_at fields.now i }
    {
        field(fields, i)
    }

    fn is(self, fields: &[u8], i: usize) -> bool
        ensures { result ≡ eqb self (field_at fields.now i) }
    {
        self == field(fields, i)
    }
}

// A time.
impl Element for i64 {
    ghost none = { pos 0 };

    ghost read = { signed_field };

    ghost is = { λ fields i t. eqb (of_z w64 t) (field_at fields i) };

    fn read(fields: &[u8], i: usize) -> i64
        ensures { result ≡ signed_field fields.now i }
    {
        signed(fields, i)
    }

    fn is(self, fields: &[u8], i: usize) -> bool
        ensures { result ≡ eqb (of_z w64 self) (field_at fields.now i) }
    {
        self == signed(fields, i)
    }
}

// A float: any NaN is any other, zeros keep their sign.
impl Element for f64 {
    ghost none = { nan };

    ghost read = { float_field };

    ghost is = { λ fields i x. eqb (to_bits binary64 x) (field_at fields i) };

    fn read(fields: &[u8], i: usize) -> f64
        ensures { result ≡ float_field fields.now i }
    {
        float(fields, i)
    }

    fn is(self, fields: &[u8], i: usize) -> bool
        ensures { result ≡ eqb (to_bits binary64 self) (field_at fields.now i) }
    {
        hex::bits(self) == field(fields, i)
    }
}

// As many elements as out has places.
pub fn fill<T: Element>(fields: &[u8], out: &mut [T])
    ensures { FilledBy (T.read fields.now) T.none out.new }
{
    for (i, x) in out.iter_mut().enumerate() {
        *x = T::read(fields, i);
    }
}

// How long a pass set's lists are said to be.
#[derive(Clone, Copy)]
pub struct SetSizes {
    pub counts: u64,
    pub centers: u64,
    pub times: u64,
    pub freqs: u64,
}

// The pass set at the first field: lists of counts, centres, times and frequencies. Past a list's end an array holds other fields.
pub fn set(
    fields: &[u8],
    counts_out: &mut [u32],
    centers_out: &mut [f64],
    times_out: &mut [i64],
    freqs_out: &mut [f64],
) -> SetSizes
    ensures { ReadsSet fields.now counts_out.new centers_out.new times_out.new freqs_out.new result }
{
    let at_centers = after_list(fields);
    let at_times = after_list(at_centers);
    let at_freqs = after_list(at_times);
    fill(from(fields, 1), counts_out);
    fill(from(at_centers, 1), centers_out);
    fill(from(at_times, 1), times_out);
    fill(from(at_freqs, 1), freqs_out);
    SetSizes {
        counts: field(fields, 0),
        centers: field(at_centers, 0),
        times: field(at_times, 0),
        freqs: field(at_freqs, 0),
    }
}

// The fields after it.
pub fn after_set(fields: &[u8]) -> &[u8]
    ensures { result.now ≡ after_list (freq_list fields.now) }
{
    after_list(after_list(after_list(after_list(fields))))
}

// The first n, or all where they are fewer.
pub fn first<T>(x: &[T], n: u64) -> &[T]
    ensures { result.now ≡ take n x.now }
{
    &x[..n.min(x.len() as u64) as usize]
}

// Whether these are the elements of the fields.
pub fn elements_are<T: Element>(fields: &[u8], x: &[T]) -> bool
    ensures { result ≡ every (T.is fields.now) 0 x.now }
{
    x.iter().enumerate().all(|(i, x)| x.is(fields, i))
}

// Whether the list that begins at the first field has n elements, the first n of these.
pub fn same<T: Element>(fields: &[u8], n: usize, x: &[T]) -> bool
    ensures { result ≡ same_list (λ f. every (T.is f) 0) fields.now n x.now }
{
    field(fields, 0) == n as u64 && n <= x.len() && elements_are(from(fields, 1), &x[..n])
}
