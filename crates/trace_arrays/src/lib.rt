// The calls of a script that write an array, its elements given by their bytes, at most 256: what is left over at the end is none.
#![tactic(auto)]

use desk::calls::ArrayCall;
use trace_writer::{trace_fp32_bits, trace_fp64_bits, trace_signeds, trace_unsigneds};

// The elements from the bytes of each, as far as there is room.
fn elements<'a, B: Copy, T: Drop, F: Fn(B) -> T>(
    each: &[B],
    room: &'a mut [T],
    element: F,
) -> &'a [T]
    requires { F.IsAlwaysCallable element }
{
    let n = each.len().min(room.len());
    let (filled, _) = room.split_at_mut(n);
    for (place, bytes) in filled.iter_mut().zip(each) {
        *place = element(*bytes);
    }
    filled
}

// Fixed memory, with the part of it that is filled: a call that could not fail still can't.
pub fn array(call: ArrayCall, desk: &mut [u64], data: &[u8], buf: &mut [u8]) {
    let (fours, _) = data.as_chunks::<4>();
    let (eights, _) = data.as_chunks::<8>();
    let mut shorts = [0u32; 64];
    let mut longs = [0u64; 32];
    let mut signeds = [0i64; 32];
    let shorts = elements(fours, &mut shorts, u32::from_le_bytes);
    let longs = elements(eights, &mut longs, u64::from_le_bytes);
    let signeds = elements(eights, &mut signeds, i64::from_le_bytes);
    match call {
        ArrayCall::Unsigneds => trace_unsigneds(desk, longs, buf),
        ArrayCall::Signeds => trace_signeds(desk, signeds, buf),
        ArrayCall::Fp32Bits => trace_fp32_bits(desk, shorts, buf),
        ArrayCall::Fp64Bits => trace_fp64_bits(desk, longs, buf),
    }
}
