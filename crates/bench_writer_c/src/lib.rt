// `bench_writer` for C: its loop under the name by which compare/ links it.
#![tactic(auto)]

#[unsafe(no_mangle)]
pub extern "C" fn bench_write(
    kind: u32,
    n: usize,
    data: &[u8],
    buf: &mut [u8],
    out: &mut [u8],
) -> u64 {
    bench_writer::bench_write(kind, n, data, buf, out)
}
