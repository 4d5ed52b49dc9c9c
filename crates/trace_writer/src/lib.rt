// The writer by calls on a desk of words, as compare/PROTOCOL.md has it: for the comparison with the Rust, and for scripts. An array's
// elements have an export for each type, every other call goes by its number.
#![tactic(auto)]

pub mod writer;

use ostream::{OStream, Written};
use writer::{asked, told};

// The array is written with the desk's numbers, and the answer told there.
fn array<T, F: FnOnce(OStream, &mut [u8], u32, &[T], usize) -> Written>(
    desk: &mut [u64],
    items: &[T],
    buf: &mut [u8],
    write: F,
)
    requires { F.IsAlwaysCallable write }
{
    let c = asked(desk);
    told(write(c.writer, buf, c.id, items, c.place), desk);
}

pub fn trace_unsigneds(desk: &mut [u64], items: &[u64], buf: &mut [u8]) {
    array(desk, items, buf, OStream::write_array_unsigned);
}

pub fn trace_signeds(desk: &mut [u64], items: &[i64], buf: &mut [u8]) {
    array(desk, items, buf, OStream::write_array_signed);
}

pub fn trace_fp32s(desk: &mut [u64], items: &[f32], buf: &mut [u8]) {
    array(desk, items, buf, OStream::write_array_fp32);
}

pub fn trace_fp64s(desk: &mut [u64], items: &[f64], buf: &mut [u8]) {
    array(desk, items, buf, OStream::write_array_fp64);
}

pub fn trace_fp32_bits(desk: &mut [u64], items: &[u32], buf: &mut [u8]) {
    array(desk, items, buf, OStream::write_array_fp32_bits);
}

pub fn trace_fp64_bits(desk: &mut [u64], items: &[u64], buf: &mut [u8]) {
    array(desk, items, buf, OStream::write_array_fp64_bits);
}
