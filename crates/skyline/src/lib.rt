#![tactic(auto)]

// Windows, skylines and rows over any strict partial order on positions, and skylines put together from those of two halves: definitions
// (specs/) and theory (proofs/).
