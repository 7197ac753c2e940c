// What a watcher of a list holds who applies the changes that are sent: definitions (specs/) and the theorem that it is the list (proofs/).
#![tactic(auto)]
