// The marked cases M1 to M10: one table (specs/), and one proof over it (proofs/).
#![tactic(auto)]
