// Theory alone, no code: 01's demands, its acceptance rule and its worked lines, each as one statement over the
// definitions of the crates below.
// The statements stand in specs/; proofs/ cites the crates' laws for them, and names the law of each public call that
// it has one outcome.
#![tactic(auto)]
