// A book switched on late: what it shows beside one on since the morning (specs/), and the theorems that it is the same, positions shifted (proofs/).
#![tactic(auto)]
