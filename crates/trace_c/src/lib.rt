// `trace` for C: the reader's and the gatherer's calls under the names by which compare/ links them.
// (An export that tells its answer on the desk answers 0, as compare/PROTOCOL.md has it.)
#![tactic(auto)]

#[unsafe(no_mangle)]
pub extern "C" fn trace_read(desk: &mut [u64], chunk: &[u8]) -> i64 {
    trace::reader::trace_read(desk, chunk);
    0
}

#[unsafe(no_mangle)]
pub extern "C" fn trace_gather(desk: &mut [u64], buf: &mut [u8], chunk: &[u8]) -> i64 {
    trace::gatherer::trace_gather(desk, buf, chunk);
    0
}

#[unsafe(no_mangle)]
pub extern "C" fn trace_part(desk: &[u64], buf: &[u8], chunk: &[u8], out: &mut [u8]) -> u64 {
    trace::gatherer::trace_part(desk, buf, chunk, out) as u64
}
