// The calls that write a field of fixed length: floats, strings, blobs, and any bytes. (Names and parameters are 01's; the private calls
// take the same, to hand it on.)
ghost use Rattle.std.specs.Prelude.{◌≡◌, length};
ghost use Rattle.std.specs.Float.{binary32, binary64};
ghost use Rattle.std.specs.Float.Ieee.{to_bits};
ghost use Rattle.layout.specs.Field.{fp32, fp64, string, blob};
ghost use Rattle.ostream.specs.Emission.{result_of, written};
ghost use Rattle.ostream.specs.Calls.{raw_call, fixlen_call, float_call, payload_call};

use crate::{OStream, Written};
use checks::check_fixlen;
use event::{fp32_bits, fp64_bits};
use types::FixlenType;
use write_at_once::field_at_once;
use write_slowly::fixlen_field;

impl OStream {
    // A fixed-length field: the header, the word, and the bytes as they are. Fast and slow form stand as in `write_varint_field`.
    fn write_fixlen_raw(
        mut self,
        buf: &mut [u8],
        id: u32,
        bytes: &[u8],
        subtype: FixlenType,
        place: usize,
    ) -> Written
        ensures { result_of result buf.new ≡ written (raw_call self (length buf.old) id bytes.now subtype) self buf.old place }
    {
        if place == 0 {
            if let Some(end) = field_at_once(buf, self.offset, self.nest(), id, subtype, bytes) {
                return self.done(end);
            }
        }
        self.rebuilt()
            .write_fixlen_slowly(buf, id, bytes, subtype, place)
            .rebuilt()
    }

    // The slow form of `write_fixlen_raw`, from any state and place. (Alone, as the slow form of a varint's field is.)
    #[inline(never)]
    fn write_fixlen_slowly(
        self,
        buf: &mut [u8],
        id: u32,
        bytes: &[u8],
        subtype: FixlenType,
        place: usize,
    ) -> Written
        ensures { result_of result buf.new ≡ written (raw_call self (length buf.old) id bytes.now subtype) self buf.old place }
    {
        let size = buf.len();
        let outcome = fixlen_field(self.start(place), buf, self.nest(), id, bytes, subtype);
        self.settle(size, outcome, self.depth)
    }

    // A fixed-length field of any subtype but a string's, which has a call of its own.
    pub fn write_fixlen(
        mut self,
        buf: &mut [u8],
        id: u32,
        bytes: &[u8],
        subtype: FixlenType,
        place: usize,
    ) -> Written
        ensures { result_of result buf.new ≡ written (fixlen_call self (length buf.old) id bytes.now subtype) self buf.old place }
    {
        if let Err(e) = check_fixlen(self.sound(buf.len()), subtype, id, bytes.len()) {
            return self.refuse(e);
        }
        self.write_fixlen_raw(buf, id, bytes, subtype, place)
    }

    // A string, as its bytes.
    pub fn write_str(mut self, buf: &mut [u8], id: u32, text: &[u8], place: usize) -> Written
        ensures { result_of result buf.new ≡ written (payload_call self (length buf.old) id string text.now) self buf.old place }
    {
        self.write_fixlen_raw(buf, id, text, FixlenType::Str, place)
    }

    // A blob.
    pub fn write_blob(mut self, buf: &mut [u8], id: u32, bytes: &[u8], place: usize) -> Written
        ensures { result_of result buf.new ≡ written (payload_call self (length buf.old) id blob bytes.now) self buf.old place }
    {
        self.write_fixlen_raw(buf, id, bytes, FixlenType::Blob, place)
    }

    // A float of 32 bits, by its bits. (01 has a name for each width; one function below the two would take a width, its subtype and its
    // bytes, which is all that a body has.)
    pub fn write_fp32_bits(mut self, buf: &mut [u8], id: u32, bits: u32, place: usize) -> Written
        ensures { result_of result buf.new ≡ written (float_call self (length buf.old) id fp32 bits) self buf.old place }
    {
        let bytes = bits.to_le_bytes();
        self.write_fixlen_raw(buf, id, &bytes, FixlenType::Fp32, place)
    }

    // A float of 64 bits, by its bits.
    pub fn write_fp64_bits(mut self, buf: &mut [u8], id: u32, bits: u64, place: usize) -> Written
        ensures { result_of result buf.new ≡ written (float_call self (length buf.old) id fp64 bits) self buf.old place }
    {
        let bytes = bits.to_le_bytes();
        self.write_fixlen_raw(buf, id, &bytes, FixlenType::Fp64, place)
    }

    // A float; a NaN's bits are 0x7fc0_0000.
    pub fn write_fp32(mut self, buf: &mut [u8], id: u32, value: f32, place: usize) -> Written
        ensures { result_of result buf.new ≡ written (float_call self (length buf.old) id fp32 (to_bits binary32 value)) self buf.old place }
    {
        self.write_fp32_bits(buf, id, fp32_bits(value), place)
    }

    // A float; a NaN's bits are 0x7ff8_0000_0000_0000.
    pub fn write_fp64(mut self, buf: &mut [u8], id: u32, value: f64, place: usize) -> Written
        ensures { result_of result buf.new ≡ written (float_call self (length buf.old) id fp64 (to_bits binary64 value)) self buf.old place }
    {
        self.write_fp64_bits(buf, id, fp64_bits(value), place)
    }
}
