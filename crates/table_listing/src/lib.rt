// The list of a window by the ends of its rows, whose positions follow one another: counted, written into cells, and written as joins; and
// the rows that are due, counted and written.
#![tactic(auto)]

mod due;
mod window;

ghost use Rattle.std.specs.Prelude.{◌≡◌, ◌≤◌, [], map, length};
ghost use Rattle.lists.specs.Lists.{laid};
ghost use Rattle.skyline.specs.Skyline.{window_start};
ghost use Rattle.head.specs.Desks.{desk_number};
ghost use Rattle.head.specs.Heads.{last_position};
ghost use Rattle.frames.specs.Frames.{frame};
ghost use Rattle.model.specs.Changes.{join_kind_of, frames};
ghost use Rattle.table_listing.specs.Joins.{join_of};

use frames::{JOIN, JOIN_TWO, PAIR_JOIN};
use head::{Desk, Head};
use octets::{lay_change, lay_position};
pub use window::RowWindow;

// What follows a list: a desk's watch of n, or the pair.
#[derive(Clone, Copy)]
pub enum Follower {
    Watch(Desk, u16),
    Pair,
}

// The first position of the window of n, as a cell; below the last position it fits.
pub fn start_of(head: Head, n: u32) -> u32
    requires { head.newest ≤ last_position }
    ensures { result ≡ window_start head.newest n }
{
    head.window_start(n) as u32
}

// The kind of a desk's joins.
fn join_kind(desk: Desk) -> u8
    ensures { result ≡ join_kind_of (desk_number desk) }
{
    match desk {
        Desk::One => JOIN,
        Desk::Two => JOIN_TWO,
    }
}

// Lays the follower's join of a position. Returns how many bytes.
fn lay_join(follower: Follower, position: u32, out: &mut [u8]) -> usize
    requires { length (frame (join_of follower position) []) ≤ length out.old }
    ensures value { result ≡ length (frame (join_of follower position) []) }
    ensures out_after { out.new ≡ laid (frame (join_of follower position) []) out.old }
{
    match follower {
        Follower::Watch(desk, n) => {
            lay_change(join_kind(desk), n, position, out);
            7
        }
        Follower::Pair => {
            lay_position(PAIR_JOIN, position, out);
            5
        }
    }
}

impl RowWindow<'_> {
    ghost use Rattle.table_listing.specs.Listed.{on_list};

    // How many rows are on the window's list.
    pub fn count_listed(&self) -> usize
        ensures { result ≡ length (on_list self.now) }
    {
        // `zip` and `filter(..).count()` take ten times the instructions: 2,714 for 901 rows, where this takes 262
        let mut n: u32 = 0;
        for i in self.first_place()..self.places_end() {
            let listed = self.lists(self.lower_ends[i], self.upper_ends[i]);
            n += u32::from(listed);
        }
        n as usize
    }

    // Writes the positions of the window's list to the front of out. Returns how many.
    pub fn write_listed(&self, out: &mut [u32]) -> usize
        requires { length (on_list self.now) ≤ length out.old }
        ensures value { result ≡ length (on_list self.now) }
        ensures out_after { out.new ≡ laid (on_list self.now) out.old }
    {
        let window = *self;
        let mut at: usize = 0;
        for i in window.first_place()..window.places_end() {
            if !window.lists(window.lower_ends[i], window.upper_ends[i]) {
                continue;
            }
            out[at] = window.first + (i as u32);
            at += 1;
        }
        at
    }

    // Writes the follower's join of each position of the window's list. Returns how many bytes.
    pub fn write_joins(&self, follower: Follower, out: &mut [u8]) -> usize
        requires { length (frames (map (join_of follower) (on_list self.now))) ≤ length out.old }
        ensures value { result ≡ length (frames (map (join_of follower) (on_list self.now))) }
        ensures out_after { out.new ≡ laid (frames
            (map (join_of follower) (on_list self.now))) out.old }
    {
        let window = *self;
        let mut at: usize = 0;
        for i in window.first_place()..window.places_end() {
            if !window.lists(window.lower_ends[i], window.upper_ends[i]) {
                continue;
            }
            let position = window.first + (i as u32);
            at += lay_join(follower, position, &mut out[at..]);
        }
        at
    }
}
