// The audit's rules: their definition (specs/), and the theorem that a saved book passes them exactly if some tape leaves it (proofs/).
#![tactic(auto)]
