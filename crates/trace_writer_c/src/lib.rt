// `trace_writer` for C: the writer's calls under the names by which compare/ links them.
// (An export that tells its answer on the desk answers 0, as compare/PROTOCOL.md has it.)
#![tactic(auto)]

#[unsafe(no_mangle)]
pub extern "C" fn trace_write(desk: &mut [u64], data: &[u8], buf: &mut [u8]) -> i64 {
    trace_writer::writer::trace_write(desk, data, buf);
    0
}

#[unsafe(no_mangle)]
pub extern "C" fn trace_unsigneds(desk: &mut [u64], items: &[u64], buf: &mut [u8]) -> i64 {
    trace_writer::trace_unsigneds(desk, items, buf);
    0
}

#[unsafe(no_mangle)]
pub extern "C" fn trace_signeds(desk: &mut [u64], items: &[i64], buf: &mut [u8]) -> i64 {
    trace_writer::trace_signeds(desk, items, buf);
    0
}

#[unsafe(no_mangle)]
pub extern "C" fn trace_fp32s(desk: &mut [u64], items: &[f32], buf: &mut [u8]) -> i64 {
    trace_writer::trace_fp32s(desk, items, buf);
    0
}

#[unsafe(no_mangle)]
pub extern "C" fn trace_fp64s(desk: &mut [u64], items: &[f64], buf: &mut [u8]) -> i64 {
    trace_writer::trace_fp64s(desk, items, buf);
    0
}

#[unsafe(no_mangle)]
pub extern "C" fn trace_fp32_bits(desk: &mut [u64], items: &[u32], buf: &mut [u8]) -> i64 {
    trace_writer::trace_fp32_bits(desk, items, buf);
    0
}

#[unsafe(no_mangle)]
pub extern "C" fn trace_fp64_bits(desk: &mut [u64], items: &[u64], buf: &mut [u8]) -> i64 {
    trace_writer::trace_fp64_bits(desk, items, buf);
    0
}
