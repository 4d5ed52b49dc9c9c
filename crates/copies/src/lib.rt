// The copier's run theorem: what its caller sends of a message in any chunks, over any buffers. This crate has no code.

#![tactic(auto)]
