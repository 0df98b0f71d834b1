// A pool's records: five words each in a lent slice of u32, record 0 the root.
// Everything here only reads, and is total: whatever the words are, and however few.
#![tactic(auto)]

pub mod soundness;
pub mod words;
