// What a catalogue's keys, maps, tries and images are, for the contracts of every crate above, and the refusals that
// their calls answer. But for these it is theory: the definitions stand in specs/, their laws in proofs/Laws/.
#![tactic(auto)]

pub mod refusals;

pub use refusals::Refusal;
