// The SofaBuffers message layout. This crate has no code: its definitions, in specs/, are what every contract cites.

#![tactic(auto)]
