// The searches of `src/map/trie.rs` and its iterator over common prefixes, on an image in three lent slices: labels,
// values, words.
// Each call but one tests the image first and answers NotAnImage (6) where no map has it; then it speaks of that map.
// `exact_match_untested` tests the lengths alone.
// `longest_prefix`, which writes, answers KeyRoom (8) last. A refusal changes no lent memory.
#![tactic(auto)]

pub mod answers;
mod common_prefixes;
mod exact;
mod prefix;
mod untested;

pub use common_prefixes::{common_prefix, common_prefix_part};
pub use exact::{exact_match, is_prefix, set_value};
pub use prefix::longest_prefix;
pub use untested::exact_match_untested;
