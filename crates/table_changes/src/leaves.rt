// The leaves that a quote makes in the list of one watch, written as frames: of the row at the window's old start, then of the rows that
// the quote retires.
ghost use Rattle.std.specs.Prelude.{◌≡◌, ◌≤◌, length};
ghost use Rattle.lists.specs.Lists.{laid};
ghost use Rattle.table_changes.specs.Frames.{fallen_frames, dropped_frames, leave_frames};

use crate::watched::Watched;
use head::CHANGE_FRAME;
use octets::lay_change;

impl Watched<'_> {
    // Writes the leave of the row at the window's old start, if the window moves past it and it was listed. Returns how many bytes.
    fn write_fallen(&self, out: &mut [u8]) -> usize
        requires { length (fallen_frames self.now) ≤ length out.old }
        ensures value { result ≡ length (fallen_frames self.now) }
        ensures out_after { out.new ≡ laid (fallen_frames self.now) out.old }
    {
        let start = self.shift.before;
        if self.shift.after <= start {
            return 0;
        }
        let place = self.place();
        let tables = self.before.tables;
        if (tables.upper_ends[place] == 0) & (tables.lower_ends[place] < start) {
            lay_change(self.kinds.leave, self.n, start, out);
            return CHANGE_FRAME;
        }
        0
    }

    // Writes the leave of each row that the quote retires, is in the window after, and has its lower end before the window's old start. Returns
    // how many bytes.
    pub fn write_dropped(&self, out: &mut [u8]) -> usize
        requires { length (dropped_frames self.now) ≤ length out.old }
        ensures value { result ≡ length (dropped_frames self.now) }
        ensures out_after { out.new ≡ laid (dropped_frames self.now) out.old }
    {
        let before = self.before;
        let lower_ends = before.tables.lower_ends;
        let retired = before.retired;
        let mut at: usize = 0;
        for i in retired {
            let position = before.first + u32::from(*i);
            let lower = lower_ends[usize::from(*i)];
            if (lower < self.shift.before) & (self.shift.after <= position) {
                lay_change(self.kinds.leave, self.n, position, &mut out[at..]);
                at += CHANGE_FRAME;
            }
        }
        at
    }

    // Writes the leaves of the watch. Returns how many bytes.
    pub fn write_leaves(&self, out: &mut [u8]) -> usize
        requires { length (leave_frames self.now) ≤ length out.old }
        ensures value { result ≡ length (leave_frames self.now) }
        ensures out_after { out.new ≡ laid (leave_frames self.now) out.old }
    {
        let at = self.write_fallen(out);
        let used = self.write_dropped(&mut out[at..]);
        at + used
    }
}
