// The reader's run theorem over its own calls: what `IStream::feed` gives of a message in any chunks. This crate has no code.

#![tactic(auto)]
