// What holds of every list of calls that was made, each meeting its contract: one field for each sentence of demand 3 (specs/), and the theorem (proofs/).
#![tactic(auto)]
