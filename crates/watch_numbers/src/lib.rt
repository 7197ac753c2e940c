// A watch record as one number, the desks' shares of the eight records, and the watches of a book, eight such numbers.
#![tactic(auto)]

mod desks;
mod shares;
mod watches;

pub use desks::{DESK_UNIT, desk_of, size_of, watch_of};
pub use shares::{above_shares, full};
pub use watches::{WatchReply, find, insert, remove, torn};
