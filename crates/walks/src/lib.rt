// Single steps down the bits of an image, total: every call answers for any labels, values, words and numbers, and none
// asks for an image that some map has.
// They go by the rule of 02, R-7 (specs/Rule), on a sequence of bits; on an image that some map has they say what the
// map says (proofs/Laws/MapWalk).
#![tactic(auto)]

pub mod answers;
pub mod entries;
pub mod glide;
pub mod moves;
pub mod siblings;
pub mod stands;
