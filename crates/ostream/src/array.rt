// The calls that write an array: of integers, and of floats. (Names and parameters are 01's; the private calls take the same, to hand it
// on.)
ghost use Rattle.std.specs.Prelude.{◌≡◌, map, length};
ghost use Rattle.std.specs.Float.{binary32, binary64};
ghost use Rattle.std.specs.Float.Ieee.{to_bits};
ghost use Rattle.layout.specs.Field.{fp32, fp64};
ghost use Rattle.layout.specs.Copy.{field_bytes};
ghost use Rattle.ostream.specs.Emission.{result_of, written};
ghost use Rattle.ostream.specs.Calls.{array_call, unsigned_array_call, signed_array_call, float_array_call};

use crate::{OStream, Written};
use elements::Integer;
use floats::Float;
use write_at_once::integers_at_once;
use write_slowly::{float_array, integer_array};

impl OStream {
    // An array of unsigned integers.
    pub fn write_array_unsigned(
        mut self,
        buf: &mut [u8],
        id: u32,
        items: &[u64],
        place: usize,
    ) -> Written
        ensures { result_of result buf.new ≡ written (unsigned_array_call self (length buf.old) id items.now) self buf.old place }
    {
        self.write_integers(buf, id, items, place)
    }

    // An array of signed integers.
    pub fn write_array_signed(
        mut self,
        buf: &mut [u8],
        id: u32,
        items: &[i64],
        place: usize,
    ) -> Written
        ensures { result_of result buf.new ≡ written (signed_array_call self (length buf.old) id items.now) self buf.old place }
    {
        self.write_integers(buf, id, items, place)
    }

    // An array of floats of 32 bits, by their bits. The word stands even where the array is empty.
    pub fn write_array_fp32_bits(
        mut self,
        buf: &mut [u8],
        id: u32,
        items: &[u32],
        place: usize,
    ) -> Written
        ensures { result_of result buf.new ≡ written (float_array_call self (length buf.old) id fp32 items.now) self buf.old place }
    {
        self.write_floats(buf, id, items, place)
    }

    // An array of floats of 32 bits. A NaN's bits are the one pattern that the logic knows.
    pub fn write_array_fp32(
        mut self,
        buf: &mut [u8],
        id: u32,
        items: &[f32],
        place: usize,
    ) -> Written
        ensures { result_of result buf.new ≡ written (float_array_call self (length buf.old) id fp32 (map (to_bits binary32) items.now)) self buf.old place }
    {
        self.write_floats(buf, id, items, place)
    }

    // An array of floats of 64 bits, by their bits.
    pub fn write_array_fp64_bits(
        mut self,
        buf: &mut [u8],
        id: u32,
        items: &[u64],
        place: usize,
    ) -> Written
        ensures { result_of result buf.new ≡ written (float_array_call self (length buf.old) id fp64 items.now) self buf.old place }
    {
        self.write_floats(buf, id, items, place)
    }

    // An array of floats of 64 bits. A NaN's bits are the one pattern that the logic knows.
    pub fn write_array_fp64(
        mut self,
        buf: &mut [u8],
        id: u32,
        items: &[f64],
        place: usize,
    ) -> Written
        ensures { result_of result buf.new ≡ written (float_array_call self (length buf.old) id fp64 (map (to_bits binary64) items.now)) self buf.old place }
    {
        self.write_floats(buf, id, items, place)
    }

    // An array of integers. Fast and slow form stand as in `write_varint_field`.
    fn write_integers<T: Integer>(
        self,
        buf: &mut [u8],
        id: u32,
        items: &[T],
        place: usize,
    ) -> Written
        ensures { result_of result buf.new ≡ written (array_call self (length buf.old) id (length items.now) (field_bytes (T.array id items.now))) self buf.old place }
    {
        if place == 0 {
            if let Some(end) = integers_at_once(buf, self.offset, self.nest(), id, items) {
                return self.done(end);
            }
        }
        self.rebuilt()
            .write_integers_slowly(buf, id, items, place)
            .rebuilt()
    }

    // The slow form of `write_integers`, from any state and place.
    #[inline(never)]
    fn write_integers_slowly<T: Integer>(
        self,
        buf: &mut [u8],
        id: u32,
        items: &[T],
        place: usize,
    ) -> Written
        ensures { result_of result buf.new ≡ written (array_call self (length buf.old) id (length items.now) (field_bytes (T.array id items.now))) self buf.old place }
    {
        let size = buf.len();
        let outcome = integer_array(self.start(place), buf, self.nest(), id, items);
        self.settle(size, outcome, self.depth)
    }

    // An array of floats. (The trait, the statement and the call are its own; with `write_integers_slowly` it has two lines in common.)
    fn write_floats<T: Float>(self, buf: &mut [u8], id: u32, items: &[T], place: usize) -> Written
        ensures { result_of result buf.new ≡ written (float_array_call self (length buf.old) id T.width (map T.bits items.now)) self buf.old place }
    {
        let size = buf.len();
        let outcome = float_array(self.start(place), buf, self.nest(), id, items);
        self.settle(size, outcome, self.depth)
    }
}
