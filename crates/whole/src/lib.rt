// The verdict on a message given whole, found field by field: no events, and payloads and float arrays are jumped over.
// The walk is generic in what it counts on the way: nothing for the verdict, the plain copy's length in `copy_len`.
#![tactic(auto)]

ghost use Rattle.std.specs.Prelude.{◌≡◌, ℕ, ◌+◌, ◌<◌, ◌/◌, ◌%◌, length};
ghost use Rattle.layout.specs.Limits.{base};
ghost use Rattle.layout.specs.Varint.{shortest};
ghost use Rattle.layout.specs.Field.{wire_of};
ghost use Rattle.layout.specs.Message.{verdict_of, body};
ghost use Rattle.passing.specs.Passing.{Passes};
ghost use Rattle.bodies.specs.Bodies.{after_body};
ghost use Rattle.lengths.specs.Lengths.{reached};
ghost use Rattle.whole.specs.Whole.{Lands, Walks, Judges, counted_field, placed_in, verdict_in};

use bodies::{array_at, fixlen_at, float_array_at};
use passing::{Stop, header_at, scalar_at};
use types::{
    MAX_DEPTH, T_FIXLEN, T_SEQUENCE_END, T_SEQUENCE_START, T_VARINT_SIGNED, T_VARINT_UNSIGNED,
    T_VARINTARRAY_SIGNED, T_VARINTARRAY_UNSIGNED,
};

// What a message comes to; a broken one with the number of bytes up to the offending one, which is counted. They are the three words that
// 01 has for a verdict, and each of them is an answer: a Result would name the three no more plainly. (In `walk` incomplete is an error,
// since what was counted is then none.)
#[derive(Clone, Copy)]
pub enum Verdict {
    Complete,
    Incomplete,
    Broken(usize),
}

// What a walk counts.
pub trait Count: Copy {
    ghost counts: { Self → ℕ → Type 0 };

    // A header, h in the plain copy.
    fn headed(self, h: u64) -> Self
        ensures { (n : ℕ) → counts self n → counts result (n + length (shortest h)) };

    // What follows the header h, which is counted, where that keeps the depth; with the bytes after it.
    fn past<'a>(self, bytes: &'a [u8], h: u64) -> Result<(Self, &'a [u8]), Stop<&'a [u8]>>
        requires { h % 8 < 6 }
        ensures { (n : ℕ) → (d : ℕ) → counts self (n + length (shortest h)) → Lands counts d (reached d n (body base d (h / 8) (wire_of (h % 8)) bytes.now).outcome) result };
}

// What follows the header h, where that keeps the depth, here and in `past`: an enum of the four kinds in place of a type below 6 would be
// one more match, where the header is read. (`copy_len` has this match with lengths: a trait for both would name each of the four twice.)
fn end_at(bytes: &[u8], h: u64) -> Result<&[u8], Stop<&[u8]>>
    requires { h % 8 < 6 }
    ensures { Passes (after_body (h / 8) (wire_of (h % 8)) bytes.now) result }
{
    match (h % 8) as u8 {
        T_VARINT_UNSIGNED | T_VARINT_SIGNED => scalar_at(bytes),
        T_FIXLEN => fixlen_at(bytes),
        T_VARINTARRAY_UNSIGNED | T_VARINTARRAY_SIGNED => array_at(bytes),
        _ => float_array_at(bytes),
    }
}

// For a verdict nothing is counted.
impl Count for () {
    ghost counts = { λ x n. Unit {0} };

    fn headed(self, _h: u64) -> () {
        self
    }

    fn past<'a>(self, bytes: &'a [u8], h: u64) -> Result<((), &'a [u8]), Stop<&'a [u8]>> {
        Ok(((), end_at(bytes, h)?))
    }
}

// What follows the header h: what is counted up to its end, the depth there, and the bytes after it. A close has id 0 in the plain copy.
fn body_at<C: Count>(
    counted: C,
    depth: u32,
    bytes: &[u8],
    h: u64,
) -> Result<(C, u32, &[u8]), Stop<&[u8]>>
    ensures { (n : ℕ) → C.counts counted n → Walks C.counts (reached depth n (body base depth (h / 8) (wire_of (h % 8)) bytes.now).outcome) result }
{
    let headed = counted.headed(h);
    match (h % 8) as u8 {
        T_SEQUENCE_START if depth < MAX_DEPTH => Ok((headed, depth + 1, bytes)),
        T_SEQUENCE_START => Err(Stop::Broken(bytes)),
        T_SEQUENCE_END if 0 < depth => Ok((
            counted.headed(T_SEQUENCE_END as u64),
            depth - 1,
            bytes,
        )),
        T_SEQUENCE_END => Err(Stop::Broken(bytes)),
        _ => {
            let (past, rest) = headed.past(bytes, h)?;
            Ok((past, depth, rest))
        }
    }
}

fn field_at<C: Count>(counted: C, depth: u32, bytes: &[u8]) -> Result<(C, u32, &[u8]), Stop<&[u8]>>
    ensures { (n : ℕ) → C.counts counted n → Walks C.counts (counted_field depth n bytes.now) result }
{
    let (h, rest) = header_at(bytes)?;
    body_at(counted, depth, rest, h)
}

// By the number of the byte that breaks the message.
fn placed(message: &[u8], stop: Stop<&[u8]>) -> Stop
    ensures { result ≡ placed_in (length message.now) stop.entry }
{
    match stop {
        Stop::Short => Stop::Short,
        Stop::Broken(rest) => Stop::Broken(message.len().saturating_sub(rest.len())),
    }
}

// A message whole, from its start on, field by field: they are of unequal lengths, so there is no `for` to go by.
pub fn walk<C: Count>(message: &[u8], start: C) -> Result<C, Stop>
    requires { C.counts start 0 }
    ensures { Judges C.counts message.now result }
{
    let mut counted = start;
    let mut depth: u32 = 0;
    let mut rest = message;
    while !rest.is_empty() {
        match field_at(counted, depth, rest) {
            Ok(next) => (counted, depth, rest) = next,
            // (By `map_err` and `?` three answers of the proof were open: what is known of `field_at` would have to be found in what those
            // hand on.)
            Err(stop) => return Err(placed(message, stop)),
        }
    }
    if depth == 0 {
        Ok(counted)
    } else {
        Err(Stop::Short)
    }
}

// The verdict on a message given whole.
pub fn verdict_of(message: &[u8]) -> Verdict
    ensures { result ≡ verdict_in (verdict_of base message.now) }
{
    match walk(message, ()) {
        Ok(_) => Verdict::Complete,
        Err(Stop::Short) => Verdict::Incomplete,
        Err(Stop::Broken(i)) => Verdict::Broken(i),
    }
}
