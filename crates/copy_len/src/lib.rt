// How long the plain copy of a message given whole is, found field by field, and no byte of it written. The way through the message is that
// of `whole`, which finds the verdict; the length is counted on the way.
#![tactic(auto)]

ghost use Rattle.std.specs.Prelude.{◌≡◌, ◌%◌, ◌<◌, ◌^◌};
ghost use Rattle.layout.specs.Field.{wire_of};
ghost use Rattle.lengths.specs.Lengths.{BodySizes};
ghost use Rattle.copy_len.specs.CopyLen.{length_of};

use lengths::{array_len, fixlen_len, float_array_len, scalar_len};
use passing::Stop;
use types::{
    T_FIXLEN, T_VARINT_SIGNED, T_VARINT_UNSIGNED, T_VARINTARRAY_SIGNED, T_VARINTARRAY_UNSIGNED,
};
use varint::width;
use whole::{Count, walk};

// What follows the header h, where that keeps the depth, as in `whole`.
fn body_len(bytes: &[u8], h: u64) -> Result<(usize, &[u8]), Stop<&[u8]>>
    requires { h % 8 < 6 }
    ensures { BodySizes (wire_of (h % 8)) bytes.now result }
{
    match (h % 8) as u8 {
        T_VARINT_UNSIGNED | T_VARINT_SIGNED => scalar_len(bytes),
        T_FIXLEN => fixlen_len(bytes),
        T_VARINTARRAY_UNSIGNED | T_VARINTARRAY_SIGNED => array_len(bytes),
        _ => float_array_len(bytes),
    }
}

// The length so far. It is no more than what was read, so the sum doesn't overflow; wrapping, it needs no bound at each step.
#[derive(Clone, Copy)]
struct Measured(usize);

impl Count for Measured {
    ghost counts = { λ x n. x.0 ≡ n % 2 ^ 64 };

    fn headed(self, h: u64) -> Measured {
        Measured(self.0.wrapping_add(width(h)))
    }

    fn past<'a>(self, bytes: &'a [u8], h: u64) -> Result<(Measured, &'a [u8]), Stop<&'a [u8]>> {
        let (n, rest) = body_len(bytes, h)?;
        Ok((Measured(self.0.wrapping_add(n)), rest))
    }
}

// The length of the plain copy of a message given whole; or the message is incomplete, or broken, with the number of bytes up to the
// offending one, which is counted.
pub fn length_of(message: &[u8]) -> Result<usize, Stop>
    ensures { result ≡ length_of message.now }
{
    let Measured(len) = walk(message, Measured(0))?;
    Ok(len)
}
