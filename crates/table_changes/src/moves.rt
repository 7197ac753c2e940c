// Whether rows join the list of a watch at a quote, or leave it, and the frames of all its changes.
ghost use Rattle.std.specs.Prelude.{◌≡◌, ◌≤◌, length};
ghost use Rattle.lists.specs.Lists.{laid};
ghost use Rattle.table_changes.specs.Held.{may_gain, still};
ghost use Rattle.table_changes.specs.Frames.{start_place, change_frames};

use crate::watched::Watched;
use head::CHANGE_FRAME;
use octets::lay_change;

impl Watched<'_> {
    // The place of the row at the window's old start.
    pub fn place(&self) -> usize
        ensures { result ≡ start_place self.now }
    {
        (self.shift.before - self.before.first) as usize
    }

    // Whether rows may join the list: the window moves past the row at its old start, and, where lower ends of live rows name live rows, that
    // row is live.
    #[tactic(auto, unfolding(crate::specs::Held::may_gain, table_finding::specs::Found::live))]
    pub fn may_gain(&self) -> bool
        ensures { result ≡ may_gain (start_place self.now) self.now.before.now.tables.upper_ends.now
            self.now.shift self.now.before.now.sound }
    {
        let tables = self.before.tables;
        self.shift.before < self.shift.after
            && !self.before.sound | (tables.upper_ends[self.place()] == 0)
    }

    // Whether no row joins the list, and only rows that the quote retires may leave it: the new row is not listed, and the window does not move
    // or, where lower ends of live rows name live rows, moves past a row that is not live.
    #[tactic(auto, unfolding(crate::specs::Held::still, table_finding::specs::Found::live))]
    pub fn still(&self) -> bool
        ensures { result ≡ still (start_place self.now) self.now.before.now.tables.upper_ends.now
            self.now.shift self.now.before.now.lower self.now.before.now.sound }
    {
        let tables = self.before.tables;
        self.shift.after <= self.before.lower
            && (self.shift.after <= self.shift.before
                || self.before.sound & (tables.upper_ends[self.place()] != 0))
    }

    // Writes the watch's changes: the leaves, then the joins. Returns how many bytes.
    pub fn write_changes(&self, out: &mut [u8]) -> usize
        requires { length (change_frames self.now) ≤ length out.old }
        ensures value { result ≡ length (change_frames self.now) }
        ensures out_after { out.new ≡ laid (change_frames self.now) out.old }
    {
        let leaves = self.write_leaves(out);
        let joins = self.write_row_joins(&mut out[leaves..]);
        let at = leaves + joins;
        if self.shift.after <= self.before.lower {
            return at;
        }
        let position = self.before.first + self.before.head.held;
        lay_change(self.kinds.join, self.n, position, &mut out[at..]);
        at + CHANGE_FRAME
    }
}
