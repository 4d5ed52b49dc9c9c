// The elements of an array of floats, by value or as their bits, in bulk: all at once where there is room for them, else from the first
// byte on that is not out until the buffer is full.
#![tactic(auto)]

ghost use Rattle.std.specs.Prelude.{◌≡◌, ℕ, ◌+◌, ◌*◌, ◌≤◌, length, refl};
ghost use Rattle.std.specs.Float.{binary32, binary64};
ghost use Rattle.std.specs.Float.Ieee.{to_bits};
ghost use Rattle.layout.specs.Field.{Width, fp32, fp64, bytes_of, low_bytes, each};
ghost use Rattle.putting.specs.Put.{Puts};
ghost use Rattle.emit.specs.Cursor.{Emitted};
ghost use Rattle.floats.specs.Word.{word_number};

use elements::{Out, evenly_out};
use emit::{Cursor, put_part};
use event::{fp32_bits, fp64_bits};
use low_bytes::put_low;
use types::{FP32_WORD, FP64_WORD};

// A float of an array, by value or as its bits: how many bytes it takes, the word before them in an array, and those bits. A NaN's are the
// one pattern that the logic knows.
pub trait Float: Copy {
    const BYTES: usize;

    ghost BYTES: { ℕ };

    const WORD: u64;

    ghost WORD: { ℕ };

    ghost width: { Width };

    ghost bits: { Self → ℕ };

    fn bits(self) -> u64
        ensures { result ≡ bits self };

    ghost sized: { BYTES ≡ bytes_of width };

    ghost worded: { WORD ≡ word_number width };
}

impl Float for u32 {
    const BYTES: usize = 4;

    ghost BYTES = { bytes_of fp32 };

    const WORD: u64 = FP32_WORD;

    ghost WORD = { word_number fp32 };

    ghost width = { fp32 };

    ghost bits = { λ x. x };

    ghost sized = { refl };

    ghost worded = { refl };

    fn bits(self) -> u64 {
        self as u64
    }
}

impl Float for u64 {
    const BYTES: usize = 8;

    ghost BYTES = { bytes_of fp64 };

    const WORD: u64 = FP64_WORD;

    ghost WORD = { word_number fp64 };

    ghost width = { fp64 };

    ghost bits = { λ x. x };

    ghost sized = { refl };

    ghost worded = { refl };

    fn bits(self) -> u64 {
        self
    }
}

impl Float for f32 {
    const BYTES: usize = 4;

    ghost BYTES = { bytes_of fp32 };

    const WORD: u64 = FP32_WORD;

    ghost WORD = { word_number fp32 };

    ghost width = { fp32 };

    ghost bits = { to_bits binary32 };

    ghost sized = { refl };

    ghost worded = { refl };

    fn bits(self) -> u64 {
        fp32_bits(self) as u64
    }
}

impl Float for f64 {
    const BYTES: usize = 8;

    ghost BYTES = { bytes_of fp64 };

    const WORD: u64 = FP64_WORD;

    ghost WORD = { word_number fp64 };

    ghost width = { fp64 };

    ghost bits = { to_bits binary64 };

    ghost sized = { refl };

    ghost worded = { refl };

    fn bits(self) -> u64 {
        fp64_bits(self)
    }
}

// The elements where there is room for all: no test at each byte. (Room: as `emit::put_fitting`. Out of line: among the rest of a call's
// code the loop came to lie where 64-bit floats took 1.7 times as long.)
#[inline(never)]
fn put_fittings<T: Float>(buf: &mut [u8], pos: usize, items: &[T]) -> usize
    requires { pos + T.BYTES * length items.now ≤ length buf.old }
    ensures { Puts buf.old pos (each (λ x. low_bytes T.BYTES (T.bits x)) items.now) buf.new result }
{
    let mut at = pos;
    for &x in items {
        at = put_low(buf, at, x.bits(), T::BYTES);
    }
    at
}

// The elements: the rest of the first that is not all out, as many whole ones as there is room for, which go as a block, and what goes of
// the next.
pub fn put_floats<T: Float>(cursor: Cursor, buf: &mut [u8], items: &[T]) -> Cursor
    ensures { Emitted cursor buf.old (each (λ x. low_bytes T.BYTES (T.bits x)) items.now) result buf.new }
{
    let Cursor { pos, skip } = cursor;
    let bytes = T::BYTES;
    let Out { whole, part } = evenly_out(items.len(), skip, bytes);
    if items.len() <= whole {
        return Cursor { pos, skip: part };
    }
    let at = put_part(buf, pos, items[whole].bits(), bytes, part);
    if buf.len() <= at {
        return Cursor { pos: at, skip: 0 };
    }
    let next = whole + 1;
    let last = next + ((buf.len() - at) / bytes).min(items.len() - next);
    let end = put_fittings(buf, at, &items[next..last]);
    if items.len() <= last {
        return Cursor { pos: end, skip: 0 };
    }
    let stop = put_part(buf, end, items[last].bits(), bytes, 0);
    Cursor { pos: stop, skip: 0 }
}
