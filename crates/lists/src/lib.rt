#![tactic(auto)]

// Lists by a test, runs of numbers and lists written in place: definitions (specs/) and laws (proofs/).
