// The bits of u64 words as a level-order degree sequence: ranks, selects, and a node's children and parent.
// Every call is total: it answers for any words, any length and any number, and reads a bit beyond the last word as 0.
// A `Sequence` is the first `len` bits of its words, so a zero at `len` or beyond is no zero of it.
// Map A of document 01, "ab" 7 and "b" 3, has the words [45] and 9 bits, 1 0 110 10 0 0: node 1 has the children 2 and
// 3, node 2 has 4.
#![tactic(auto)]

pub mod answers;
mod bits;
mod nodes;
mod rank;
mod select;

pub use answers::Children;
pub use bits::{Sequence, WORD_BITS, bit_at, put_one};
pub use rank::{ones_before, ones_by_byte, ones_in, zeros_before};
pub use select::{lowest_one, one_back, ones_from};
