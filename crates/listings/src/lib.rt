// Listings of the keys of an image in three lent slices, labels, values, words: a start gives a cursor, and each step
// the next key's node and value.
// Each call tests the image first and answers NotAnImage (6) where no map has it; then it speaks of that map.
// Calls on a cursor answer BadPlace (7) next, and `cursor_key` answers KeyRoom (8) last. A refusal changes no lent
// memory.
#![tactic(auto)]

pub mod answers;
mod cursors;
mod given_key;

pub use cursors::{postfix_search, predictive_search, step};
pub use given_key::cursor_key;
