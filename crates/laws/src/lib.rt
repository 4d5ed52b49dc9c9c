// The layout's own laws: what follows from its definitions for every byte string. This crate has no code.

#![tactic(auto)]
