// The writer's refusals: its tests by their numbers, and the tests of each kind of call in their order. This crate has no code.

#![tactic(auto)]
