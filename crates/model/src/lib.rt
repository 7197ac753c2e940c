#![tactic(auto)]

// The reference model, the book model and the audit's rules: definitions (specs/) and the theorems that join them (proofs/).
