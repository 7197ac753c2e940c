// What a quote finds among the rows of a table: those that it retires, and the youngest row over it, sought from the youngest row back.
#![tactic(auto)]

ghost use Rattle.std.specs.Prelude.{◌≡◌, true, not, cond, count_by, ◌==◌, ℕ, suc, ◌+◌, ◌-◌, ◌*◌, ◌≤◌, ◌<◌, length, set, drop};
ghost use Rattle.dominance.specs.Dominance.{no_worse};
ghost use Rattle.table_finding.specs.Found.{taken_live, dull_in, rows_of, retires, Fits, Room, Sound, Finds, Passing, Idle, NextSaid};

use choices::chosen;
use dominance::{compare, compare_unrolled};

// The rows of a table, of d columns each, and a quote that is compared with them: the directions, the rows' columns and upper ends, and the
// quote's columns; whether the rows' ends are sound, as calls leave them; and whether the book is dense, so that most rows are live.
#[derive(Clone, Copy)]
pub struct ComparedRows<'a> {
    pub directions: u32,
    pub d: usize,
    pub columns: &'a [u32],
    pub uppers: &'a [u32],
    pub quote: &'a [u32],
    pub sound: bool,
    pub dense: bool,
}

// What was found: the place in the list of retired rows from which on they are listed, and the place of the youngest row over the quote.
#[derive(Clone, Copy)]
pub struct Found {
    pub at: usize,
    pub last: Option<usize>,
}

// How many of these rows are live, 64 at most. They are summed in 32 bits: `filter` and `count`, in 64, cost a quote in a
// sparse book 1.2 to 2.3 times the instructions.
fn count_live(uppers: &[u32]) -> u32
    requires { length uppers.now ≤ 64 }
    ensures { result ≡ count_by (λ u. u == 0) uppers.now }
{
    uppers.iter().map(|upper| u32::from(*upper == 0)).sum()
}

// Lists a place in front of those listed from at on, if the test passed. Returns from where on they are listed.
#[tactic(auto, using(crate::proofs::Looping::pushed))]
fn push(places: &mut [u16], at: usize, place: usize, test: bool) -> usize
    requires at_nonzero { 0 < at }
    requires at_in_bounds { at ≤ length places.old }
    requires place_bound { place < 65536 }
    ensures value { result ≡ cond test (at - 1) at }
    ensures lower_bound { (at - 1 ≤ result) × (result ≤ at) }
    ensures places_after { places.new ≡ set places.old (at - 1) place }
{
    let before = at - 1;
    places[before] = place as u16;
    chosen(test, before, at)
}

// Where the rows begin that are gone through at once below a place: 64 rows before it, or at the first one.
fn block_start(from: usize, to: usize) -> usize
    requires { from < to }
    ensures lower_bound { (from ≤ result) × (result < to) }
    ensures to_bound { to ≤ result + 64 }
{
    from.max(to.saturating_sub(64))
}

// Whether the cells of one row are no worse than those of another, from a place on. The first column that is worse decides.
fn no_worse(directions: u32, d: usize, xs: &[u32], ys: &[u32]) -> bool
    requires d_in_bounds { d ≤ length xs.now }
    requires d_in_bounds_2 { d ≤ length ys.now }
    ensures { result ≡ no_worse d directions xs.now ys.now }
{
    let mut bits = directions;
    for i in 0..d {
        if compare(bits, 1, &xs[i..], ys, i).worse {
            return false;
        }
        bits >>= 1;
    }
    true
}

impl ComparedRows<'_> {
    // Whether the quote is better than each of the 64 rows from a place on in some column, and worse in another: rows of d columns. It is
    // without branches, so that rows are compared side by side.
    fn dull(self, d: usize, from: usize) -> bool
        requires same { d ≡ self.d }
        requires fits { Fits (rows_of self) (from + 64) }
        ensures { result ≡ dull_in (rows_of self.entry) from 64 }
    {
        let mut all = true;
        for i in from..from + 64 {
            let c = compare(self.directions, d, self.quote, self.columns, i * d);
            all &= c.better & c.worse;
        }
        all
    }

    // The same, with each of 01's numbers of columns as a constant, so that the loop over them is unrolled.
    #[inline(always)]
    fn dull_columns(self, from: usize) -> bool
        requires { Fits (rows_of self) (from + 64) }
        ensures { result ≡ dull_in (rows_of self.entry) from 64 }
    {
        match self.d {
            1 => self.dull(1, from),
            2 => self.dull(2, from),
            3 => self.dull(3, from),
            4 => self.dull(4, from),
            5 => self.dull(5, from),
            6 => self.dull(6, from),
            d => self.dull(d, from),
        }
    }

    // How many of the 64 rows below a place are taken for live: all of them in a dense book, where most rows are, else those that are; one
    // where there are fewer rows below it.
    #[tactic(auto, unfolding(crate::specs::Found::taken_live))]
    #[inline(always)]
    fn taken_live(self, to: usize) -> u32
        requires { to ≤ length self.uppers.now }
        ensures { result ≡ taken_live self.entry.dense self.entry.uppers.now to }
    {
        if to < 64 {
            return 1;
        }
        if self.dense {
            return 64;
        }
        count_live(&self.uppers[to - 64..to])
    }

    // Goes through the row at a place. Where the rows' ends are sound a retired row is passed over; elsewhere it is once a row over the
    // quote is found.
    #[inline(always)]
    fn go_through(self, place: usize, places: &mut [u16], found: Found) -> Found
        requires fits { Fits (rows_of self) (suc place) }
        requires room { Room (rows_of self) (suc place) places.old found.at }
        ensures room_2 { Room (rows_of self.entry) place places.new result.at }
        ensures by_index { (b : ℕ) → suc place ≤ b → Passing (rows_of self.entry) self.entry.sound
            place (suc place) b places.old found places.new result }
    {
        let live = self.uppers[place] == 0;
        if !live & (self.sound | found.last.is_some()) {
            return found;
        }
        let c = compare_unrolled(
            self.directions,
            self.d,
            self.quote,
            self.columns,
            place * self.d,
        );
        let at = push(places, found.at, place, live & c.over_older());
        let youngest = found.last.is_none() & c.under_older();
        Found {
            at,
            last: chosen(youngest, Some(place), found.last),
        }
    }

    // Goes through the rows below a place down to another, whose ends are sound: down to one over the quote.
    #[inline(always)]
    fn go_down(self, from: usize, to: usize, places: &mut [u16], found: Found) -> Found
        requires from_le_to { from ≤ to }
        requires fits { Fits (rows_of self) to }
        requires room { Room (rows_of self) to places.old found.at }
        ensures room_2 { Room (rows_of self.entry) from places.new result.at }
        ensures by_index { (b : ℕ) → to ≤ b → Passing (rows_of self.entry) self.entry.sound
            from to b places.old found places.new result }
    {
        let mut so_far = found;
        for i in (from..to).rev() {
            so_far = self.go_through(i, places, so_far);
            if self.sound & so_far.last.is_some() {
                return so_far;
            }
        }
        so_far
    }

    // Whether the quote does not retire the row at a place.
    #[tactic(auto, using(crate::proofs::Comparisons::live_zero, crate::proofs::Comparisons::live_not, crate::proofs::Idling::dead_kept, crate::proofs::Idling::live_kept, crate::proofs::Idling::rest_whole))]
    #[inline(always)]
    fn is_kept(self, place: usize) -> bool
        requires { Fits (rows_of self) (suc place) }
        ensures { result ≡ not (retires (rows_of self.entry) place) }
    {
        if self.uppers[place] != 0 {
            return true;
        }
        !no_worse(
            self.directions,
            self.d,
            self.quote,
            &self.columns[place * self.d..],
        )
    }

    // Whether the row at a place is seen to say nothing: the quote does not retire it, and if one over the quote is sought, it is none.
    #[tactic(auto, using(crate::proofs::Idling::idle_kept))]
    #[inline(always)]
    fn is_idle(self, sought: bool, place: usize) -> bool
        requires { Fits (rows_of self) (suc place) }
        ensures { result ≡ true → Idle (rows_of self.entry) sought place }
    {
        if !sought {
            return self.is_kept(place);
        }
        if no_worse(
            self.directions,
            self.d,
            &self.columns[place * self.d..],
            self.quote,
        ) {
            return false;
        }
        self.is_kept(place)
    }

    // The youngest row from a place on and below another that may say something. In one loop with `go_down_any` a quote costs 1.07 to 1.18
    // times the instructions.
    #[inline(always)]
    fn next_said(self, sought: bool, from: usize, to: usize) -> Option<usize>
        requires from_le_to { from ≤ to }
        requires fits { Fits (rows_of self) to }
        ensures { NextSaid (rows_of self.entry) sought from to result }
    {
        for i in (from..to).rev() {
            if !self.is_idle(sought, i) {
                return Some(i);
            }
        }
        None
    }

    // Goes through the rows below a place down to another, whatever their ends; those that say nothing are passed over.
    #[inline(always)]
    fn go_down_any(self, from: usize, to: usize, places: &mut [u16], found: Found) -> Found
        requires from_le_to { from ≤ to }
        requires fits { Fits (rows_of self) to }
        requires room { Room (rows_of self) to places.old found.at }
        ensures room_2 { Room (rows_of self.entry) from places.new result.at }
        ensures by_index { (b : ℕ) → to ≤ b → Passing (rows_of self.entry) self.entry.sound
            from to b places.old found places.new result }
    {
        let mut so_far = found;
        let mut i = to;
        while let Some(next) = self.next_said(so_far.last.is_none(), from, i) {
            so_far = self.go_through(next, places, so_far);
            i = next;
        }
        so_far
    }

    // Goes through the rows from a place on and below another, which are 64 at most: none where none is live and no retired row counts, and
    // where most are taken for live, one by one only if one of the 64 rows below that place is comparable.
    #[inline(always)]
    fn go_down_block(self, from: usize, to: usize, places: &mut [u16], found: Found) -> Found
        requires from_le_to { (from ≤ to) × (to ≤ from + 64) }
        requires fits { Fits (rows_of self) to }
        requires room { Room (rows_of self) to places.old found.at }
        ensures room_2 { Room (rows_of self.entry) from places.new result.at }
        ensures by_index { (b : ℕ) → to ≤ b → Passing (rows_of self.entry) self.entry.sound
            from to b places.old found places.new result }
    {
        let live = self.taken_live(to);
        if (live == 0) & (self.sound | found.last.is_some()) {
            return found;
        }
        if 32 < live && self.dull_columns(to - 64) {
            return found;
        }
        if self.sound {
            self.go_down(from, to, places, found)
        } else {
            self.go_down_any(from, to, places, found)
        }
    }

    // Finds which of the rows from a place on and below another the quote retires, and the youngest of them over it, by blocks of 64 from
    // the youngest row back. Where the rows' ends are sound no row need be gone through beyond the youngest live one over the quote. The
    // blocks are counted down by hand: a `step_by` would give each block's last row, and the first row of the last block apart from it.
    #[inline(always)]
    pub fn find_rows(self, from: usize, to: usize, places: &mut [u16]) -> Found
        requires from_le_to { from ≤ to }
        requires fits { Fits (rows_of self) to }
        requires to_in_bounds { to ≤ length places.old }
        requires sound { self.sound ≡ true → Sound (rows_of self) from to }
        ensures { Finds (rows_of self.entry) from to places.new result }
    {
        let mut so_far = Found {
            at: places.len(),
            last: None,
        };
        let mut i = to;
        while from < i {
            let next = block_start(from, i);
            so_far = self.go_down_block(next, i, places, so_far);
            if self.sound & so_far.last.is_some() {
                return so_far;
            }
            i = next;
        }
        so_far
    }
}
