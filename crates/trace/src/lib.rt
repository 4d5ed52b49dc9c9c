// The reader and the gatherer by calls on a desk of words, one export each, as compare/PROTOCOL.md has it: for the comparison with the
// Rust, and for scripts.
#![tactic(auto)]

pub mod gatherer;
pub mod reader;
