// `trace_copier` for C: the copier's calls, and its loop for the benchmark, under the names by which compare/ links them.
// (An export that tells its answer on the desk answers 0, as compare/PROTOCOL.md has it.)
#![tactic(auto)]

#[unsafe(no_mangle)]
pub extern "C" fn trace_copy(desk: &mut [u64], data: &[u8], buf: &mut [u8]) -> i64 {
    trace_copier::copies::trace_copy(desk, data, buf);
    0
}

#[unsafe(no_mangle)]
pub extern "C" fn bench_copy(ticket: &[u8], size: usize, buf: &mut [u8], out: &mut [u8]) -> u64 {
    trace_copier::bench::bench_copy(ticket, size, buf, out) as u64
}
