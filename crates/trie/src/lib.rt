// The door to the searches: every call on an image in three lent slices, labels, values, words, after
// `src/map/trie.rs`, its iterators and `src/inc_search.rs`.
// Each call tests the image first and answers NotAnImage (6) where no map has it; then it speaks of that map.
// `exact_match_untested` tests the lengths alone.
// Calls on a place or cursor answer BadPlace (7) next, and calls that write answer KeyRoom (8) last. A refusal changes
// no lent memory.
// Nodes are numbered as 01 says: 1 is the root, and the others follow in breadth-first order.
#![tactic(auto)]

pub mod place;

pub use keymap::Refusal;
pub use listings::answers::{Cursor, Kind, Stepped};
pub use listings::{cursor_key, postfix_search, predictive_search, step};
pub use searches::answers::Common;
pub use searches::{
    common_prefix, common_prefix_part, exact_match, exact_match_untested, is_prefix,
    longest_prefix, set_value,
};
