// The joins of rows held before a quote to the list of one watch, written as frames.
ghost use Rattle.std.specs.Prelude.{◌≡◌, ◌≤◌, ◌<◌, length};
ghost use Rattle.lists.specs.Lists.{laid};
ghost use Rattle.table_changes.specs.Held.{stands};
ghost use Rattle.table_changes.specs.Frames.{rows_by, join_frames};

use crate::seeking::next_equal;
use crate::watched::Watched;
use dominance::compare;
use head::CHANGE_FRAME;
use octets::lay_change;

impl Watched<'_> {
    // Whether the row at a place is live and the quote is not over it.
    fn stands(&self, place: usize) -> bool
        requires { place < self.now.before.now.head.held }
        ensures { result ≡ stands (rows_by self.now.before.now) place }
    {
        let before = self.before;
        let tables = before.tables;
        if tables.upper_ends[place] != 0 {
            return false;
        }
        let head = before.head;
        let d = head.dimensions as usize;
        let c = compare(head.directions, d, before.quote, tables.columns, place * d);
        !c.over_older()
    }

    // Writes the join of each row held that joins the list: its lower end is the window's old start. Returns how many bytes.
    pub fn write_row_joins(&self, out: &mut [u8]) -> usize
        requires { length (join_frames self.now) ≤ length out.old }
        ensures value { result ≡ length (join_frames self.now) }
        ensures out_after { out.new ≡ laid (join_frames self.now) out.old }
    {
        if !self.may_gain() {
            return 0;
        }
        let before = self.before;
        let lower_ends = before.tables.lower_ends;
        let count = before.head.held as usize;
        let mut at: usize = 0;
        let mut next = next_equal(lower_ends, self.place() + 1, count, self.shift.before);
        while let Some(i) = next {
            let joins = self.stands(i);
            next = next_equal(lower_ends, i + 1, count, self.shift.before);
            if joins {
                lay_change(
                    self.kinds.join,
                    self.n,
                    before.first + i as u32,
                    &mut out[at..],
                );
                at += CHANGE_FRAME;
            }
        }
        at
    }
}
