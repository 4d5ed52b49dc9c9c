// `bench` for C: its two loops under the names by which compare/ links them.
#![tactic(auto)]

#[unsafe(no_mangle)]
pub extern "C" fn bench_read(bytes: &[u8], size: usize) -> u64 {
    bench::bench_read(bytes, size)
}

#[unsafe(no_mangle)]
pub extern "C" fn bench_gather(payload: &[u8], size: usize, buf: &mut [u8]) -> u64 {
    bench::bench_gather(payload, size, buf)
}
