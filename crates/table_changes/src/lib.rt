// The changes that a quote makes to the lists of the watches, by the rows held before it, written as frames.
#![tactic(auto)]

mod before;
mod each_watch;
mod joins;
mod kinds;
mod leaves;
mod moves;
mod seeking;
mod watched;

pub use before::Before;
pub use each_watch::{shift_of, write_all_changes};
pub use seeking::next_equal;

// How the window of a watch moves at a quote: its start before and after it.
#[derive(Clone, Copy)]
pub struct Shift {
    pub before: u32,
    pub after: u32,
}
