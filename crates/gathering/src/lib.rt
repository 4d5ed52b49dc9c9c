// What a call of the gatherer says, and the state and the buffer that it leaves, as definitions; and what holds of them. This crate
// has no code.

#![tactic(auto)]
