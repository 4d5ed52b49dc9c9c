// The elements of an array of integers, in bulk: all at once where there is room for them, else from the first byte on that is not out
// until the buffer is full. Those that are out already are only counted, and those beyond the buffer's end not looked at.
#![tactic(auto)]

ghost use Rattle.std.specs.Prelude.{List, ℕ, ◌≡◌, ◌+◌, ◌-◌, ◌*◌, ◌≤◌, ◌<◌, ltb, length};
ghost use Rattle.layout.specs.Varint.{shortest};
ghost use Rattle.layout.specs.Field.{Field, unsigned_array, signed_array, each, wire_number, t_unsigneds, t_signeds};
ghost use Rattle.layout.specs.Copy.{field_bytes};
ghost use Rattle.layout.specs.Limits.{pick};
ghost use Rattle.layout.specs.Zigzag.{zigzag};
ghost use Rattle.putting.specs.Put.{Puts, PutsAll};
ghost use Rattle.emit.specs.Cursor.{Emitted};
ghost use Rattle.elements.specs.OutAfter.{OutAfter, elements_most, row_of};
ghost use Rattle.elements.specs.Rows.{unsigneds_written, signeds_written};

use emit::{Cursor, put_fitting};
use types::{T_VARINTARRAY_SIGNED, T_VARINTARRAY_UNSIGNED};
use varint::{VARINT_MAX, width, zigzag_encode};
use varint_bytes::put_whole;

// An integer of an array: the number whose varint it goes as, and the type of such arrays.
pub trait Integer: Copy {
    const WIRE: u8;

    ghost WIRE: { ℕ };

    ghost number: { Self → ℕ };

    ghost array: { ℕ → List Self → Field };

    fn number(self) -> u64
        ensures { result ≡ number self };

    ghost written: { (id : ℕ) (items : List Self) → field_bytes (array id items) ≡ row_of (id * 8 + WIRE) (λ x. shortest (number x)) items };
}

impl Integer for u64 {
    const WIRE: u8 = T_VARINTARRAY_UNSIGNED;

    ghost WIRE = { wire_number t_unsigneds };

    ghost number = { λ x. x };

    ghost array = { unsigned_array };

    ghost written = { unsigneds_written };

    fn number(self) -> u64 {
        self
    }
}

impl Integer for i64 {
    const WIRE: u8 = T_VARINTARRAY_SIGNED;

    ghost WIRE = { wire_number t_signeds };

    ghost number = { zigzag };

    ghost array = { signed_array };

    ghost written = { signeds_written };

    fn number(self) -> u64 {
        zigzag_encode(self)
    }
}

// How much of an array's elements is out: whole ones, and bytes of the next.
#[derive(Clone, Copy)]
pub struct Out {
    pub whole: usize,
    pub part: usize,
}

// The elements' varints where there is room for the longest of each, two at a turn: one took up to 1.2 times as long. (Room: as
// `emit::put_fitting`.)
pub fn put_fittings<T: Integer>(buf: &mut [u8], pos: usize, items: &[T]) -> usize
    requires { pos + elements_most (length items.now) ≤ length buf.old }
    ensures { PutsAll buf.old pos (each (λ x. shortest (T.number x)) items.now) buf.new result }
{
    let mut left = items;
    let mut at = pos;
    while let [v, w, rest @ ..] = left {
        let mid = put_fitting(buf, at, v.number());
        at = put_fitting(buf, mid, w.number());
        left = rest;
    }
    match left {
        [v, ..] => put_fitting(buf, at, v.number()),
        [] => at,
    }
}

// The varint of v from pos on, with a test for the buffer's end at each byte only where it is near.
// (That pos lies within it is asked for: its caller has tested that, and this is done for each element.)
fn put_next(buf: &mut [u8], pos: usize, v: u64) -> usize
    requires { pos ≤ length buf.old }
    ensures { Puts buf.old pos (shortest v) buf.new result }
{
    if VARINT_MAX <= buf.len() - pos {
        return put_fitting(buf, pos, v);
    }
    put_whole(buf, pos, v)
}

// Where the elements' varints go on after the first `skip` bytes of them.
pub fn varints_out<T: Integer>(items: &[T], skip: usize) -> Out
    ensures { OutAfter (λ x. shortest (T.number x)) items.now skip result.whole result.part }
{
    let mut left = skip;
    for (i, &x) in items.iter().enumerate() {
        let len = width(x.number());
        if left < len {
            return Out {
                whole: i,
                part: left,
            };
        }
        left -= len;
    }
    Out {
        whole: items.len(),
        part: left,
    }
}

// How many bytes n elements take, of which so many are out after the first `most`; where they take more than that, one more. (With an
// Option of that number the writer took 1.05 times as long on arrays written into one byte.)
pub fn counted(out: Out, n: usize, most: usize) -> usize
    requires { (out.part ≤ most) × (most < 18446744073709551615) }
    ensures { result ≡ pick (ltb out.whole n) (most + 1) (most - out.part) }
{
    if out.whole < n {
        return most + 1;
    }
    most - out.part
}

// The elements' varints until the buffer is full. (Out of line: within the slow form of a call, and at two places there, the loop had what it
// goes by in memory, and arrays written into less room than they might need took up to 1.8 times as long.)
#[inline(never)]
fn put_until_full<T: Integer>(buf: &mut [u8], pos: usize, items: &[T]) -> usize
    ensures { Puts buf.old pos (each (λ x. shortest (T.number x)) items.now) buf.new result }
{
    let mut at = pos;
    for &x in items {
        if buf.len() <= at {
            return at;
        }
        at = put_next(buf, at, x.number());
    }
    at
}

// The elements' varints, from the first byte on that is not out.
pub fn put_varints<T: Integer>(cursor: Cursor, buf: &mut [u8], items: &[T]) -> Cursor
    ensures { Emitted cursor buf.old (each (λ x. shortest (T.number x)) items.now) result buf.new }
{
    let Cursor { pos, skip } = cursor;
    if skip == 0 {
        let end = put_until_full(buf, pos, items);
        return Cursor { pos: end, skip: 0 };
    }
    let Out { whole, part } = varints_out(items, skip);
    if items.len() <= whole {
        return Cursor { pos, skip: part };
    }
    let next = put_whole(buf, pos, items[whole].number() >> (part * 7));
    let end = put_until_full(buf, next, &items[whole + 1..]);
    Cursor { pos: end, skip: 0 }
}

// Where elements of `width` bytes each, n of them, go on after the first `skip` bytes: those of arrays of floats.
pub fn evenly_out(n: usize, skip: usize, width: usize) -> Out
    requires { 0 < width }
    ensures { (result.whole ≤ n) × (result.whole * width + result.part ≡ skip) × (result.whole < n → result.part < width) }
{
    let whole = (skip / width).min(n);
    Out {
        whole,
        part: skip - whole * width,
    }
}
