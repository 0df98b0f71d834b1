// Incremental search, after `src/inc_search.rs`: a place is a node of a lent image, and is not tied to one image. Its
// calls answer NotAnImage (6) first,
// then BadPlace (7) of a number that is no node's, and KeyRoom (8) of a buffer that is too short; a refusal leaves the
// place where it is.
#![tactic(auto)]

pub mod answers;
pub mod calls;
mod checks;
mod moves;
pub mod reading;

pub use answers::{Answer, Moved, Place};
pub use calls::{goto_at, goto_longest_prefix, peek, query, query_at, query_until, query_until_at};
pub use reading::{prefix, prefix_len, resume, value};
