// A tape played by the reference model and by the book model, and its print: definitions (specs/) and the theorems that join them (proofs/).
#![tactic(auto)]
