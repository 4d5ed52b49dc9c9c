// What a C host is promised of the four exports. This crate has no code: `host` has the functions, and their contracts cite specs/.
#![tactic(auto)]
