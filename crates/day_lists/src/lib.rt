// The day sheet beside the book: what a day fed to a book lists.
#![tactic(auto)]
