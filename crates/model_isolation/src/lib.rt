// What concerns one desk alone: definitions (specs/) and the theorem that the other desk does not show in it (proofs/).
#![tactic(auto)]
