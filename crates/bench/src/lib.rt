// Loops over the reader's and the gatherer's calls, for the benchmark in compare/: the same work as the loops over the Rust there, and the
// same digests.
#![tactic(auto)]

mod reading;

// Reads the bytes in chunks of `size` bytes (0, which is C's number: whole), and answers a digest of the events.
pub fn bench_read(bytes: &[u8], size: usize) -> u64 {
    reading::chunks(bytes, if size == 0 { bytes.len() } else { size })
}

// Gathers a payload from pieces of `size` bytes, and answers how many bytes are whole in the end: to C, so 0 where none are.
pub fn bench_gather(payload: &[u8], size: usize, buf: &mut [u8]) -> u64 {
    reading::gather(payload, size, buf)
}
