// Reader and gatherer together: the pieces that a reader gives of a payload bring it whole. This crate has no code.

#![tactic(auto)]
