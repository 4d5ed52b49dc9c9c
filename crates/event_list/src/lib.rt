// The event list of a message, 01's lines as bytes. This crate has no code: `lines` has the functions that put them into a buffer.

#![tactic(auto)]
