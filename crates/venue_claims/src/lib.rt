// What holds of every run of the join over two venues' tapes, each call meeting its contract on what the one before left: a venue's tape,
// the merge and the positions that joined quotes get on a book (specs/), and the theorems (proofs/).
#![tactic(auto)]
