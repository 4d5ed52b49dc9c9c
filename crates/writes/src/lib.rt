// Series of writes with drains and buffer changes between them: a theorem. This crate has no code.

#![tactic(auto)]
