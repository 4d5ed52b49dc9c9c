// The reader as a machine on bytes, and the proof that it reads the layout. This crate has no code: istream's contracts cite its
// definitions.

#![tactic(auto)]
