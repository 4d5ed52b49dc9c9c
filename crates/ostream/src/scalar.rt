// The calls that write a number or a boolean: a header and one varint. (What they take is 01's; the private ones take the same, to hand it
// on.)
ghost use Rattle.std.specs.Prelude.{◌≡◌, length};
ghost use Rattle.ostream.specs.Emission.{result_of, written};
ghost use Rattle.ostream.specs.Calls.{varint_call, unsigned_call, signed_call, boolean_call};

use crate::{OStream, Written};
use types::{T_VARINT_SIGNED, T_VARINT_UNSIGNED};
use varint::zigzag_encode;
use write_at_once::pair_at_once;
use write_slowly::varint_field;

impl OStream {
    // A field of a header and one varint: the fast form, then the slow one. One function for this and for `write_fixlen_raw` would take a
    // closure for each form, and both would hold the buffer. (The type is the wire's number, a term of the header: as an enum it would be
    // made a number again, by a match with a law.)
    fn write_varint_field(
        mut self,
        buf: &mut [u8],
        id: u32,
        wire: u8,
        value: u64,
        place: usize,
    ) -> Written
        ensures { result_of result buf.new ≡ written (varint_call self (length buf.old) id wire value) self buf.old place }
    {
        if place == 0 {
            if let Some(end) = pair_at_once(buf, self.offset, self.nest(), id, wire, value) {
                return self.done(end);
            }
        }
        self.rebuilt()
            .write_varint_field_slowly(buf, id, wire, value, place)
            .rebuilt()
    }

    // The slow form of `write_varint_field`, from any state and place. (One for this and the other slow forms would take a closure with a
    // contract by `went_by`, longer than the three lines that they have in common.)
    #[inline(never)]
    fn write_varint_field_slowly(
        self,
        buf: &mut [u8],
        id: u32,
        wire: u8,
        value: u64,
        place: usize,
    ) -> Written
        ensures { result_of result buf.new ≡ written (varint_call self (length buf.old) id wire value) self buf.old place }
    {
        let size = buf.len();
        let outcome = varint_field(self.start(place), buf, self.nest(), id, wire, value);
        self.settle(size, outcome, self.depth)
    }

    // An unsigned integer.
    pub fn write_unsigned(mut self, buf: &mut [u8], id: u32, value: u64, place: usize) -> Written
        ensures { result_of result buf.new ≡ written (unsigned_call self (length buf.old) id value) self buf.old place }
    {
        self.write_varint_field(buf, id, T_VARINT_UNSIGNED, value, place)
    }

    // A signed integer.
    pub fn write_signed(mut self, buf: &mut [u8], id: u32, value: i64, place: usize) -> Written
        ensures { result_of result buf.new ≡ written (signed_call self (length buf.old) id value) self buf.old place }
    {
        self.write_varint_field(buf, id, T_VARINT_SIGNED, zigzag_encode(value), place)
    }

    // A boolean, as an unsigned 0 or 1.
    pub fn write_boolean(mut self, buf: &mut [u8], id: u32, value: bool, place: usize) -> Written
        ensures { result_of result buf.new ≡ written (boolean_call self (length buf.old) id value) self buf.old place }
    {
        self.write_unsigned(buf, id, u64::from(value), place)
    }
}
