// Descents along a whole query from the root, total: they answer for any labels, words and query, by the rule of 02,
// R-7 (`walks`).
// Whole words of the bits are passed by their counts; a walk keeps the word that it stands in, and looks for the next
// zero from there on.
#![tactic(auto)]

mod far;
mod queries;

pub use queries::{end_of, walk};
