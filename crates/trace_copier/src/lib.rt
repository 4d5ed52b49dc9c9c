// The copier by calls on a desk of words, as compare/PROTOCOL.md has it: for the comparison with the Rust, and for scripts; and the
// copier's loop for the benchmark.
#![tactic(auto)]

pub mod bench;
pub mod copies;
