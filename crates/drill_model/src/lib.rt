// The theory of the quoting drill: no code.
#![tactic(auto)]
