// Writes into a lent buffer that stop at its end, from a place in an output on, as definitions, and their laws. This crate has no code.

#![tactic(auto)]
