// Climbs over the bits of an image, total: every call answers for any labels, words and numbers, and ends.
// A climb goes up as long as the parent's number is from 1 to the node's less 1; on an image that some map has it says
// what the map says (proofs/Laws/MapClimb).
#![tactic(auto)]

pub mod below;
pub mod order;
pub mod perches;
pub mod spelling;
