// The joins that a quote makes in the past list of the pair: of the rows that its window's old start was over, then of the row at its new
// end.
ghost use Rattle.std.specs.Prelude.{◌≡◌, ◌≤◌, length};
ghost use Rattle.lists.specs.Lists.{laid};
ghost use Rattle.table_pair_changes.specs.Frames.{gained_frames, join_frames};

use crate::pair_window::PairWindow;
use crate::windows::{lasts, write_one};
use frames::PAIR_JOIN;
use head::PAIR_FRAME;
use octets::lay_position;
use table_changes::next_equal;

impl PairWindow<'_> {
    // Writes the join of each row of the window whose lower end is the old start and whose upper end does not lie in the window. Returns how
    // many bytes. On a sound book there is none where the row at the old start was not listed.
    fn write_gained(&self, out: &mut [u8]) -> usize
        requires { length (gained_frames self.now) ≤ length out.old }
        ensures value { result ≡ length (gained_frames self.now) }
        ensures out_after { out.new ≡ laid (gained_frames self.now) out.old }
    {
        let gains = self.falls() | !self.sound;
        if !gains | (self.start.after <= self.start.before) {
            return 0;
        }
        let start = self.start;
        let end = self.end.after;
        let to = (end - self.first) as usize;
        let from = (start.after - self.first) as usize;
        let mut at: usize = 0;
        let mut next = next_equal(self.lower_ends, from, to, start.before);
        while let Some(i) = next {
            let joins = lasts(end, self.upper_ends[i]);
            next = next_equal(self.lower_ends, i + 1, to, start.before);
            if joins {
                lay_position(PAIR_JOIN, self.first + i as u32, &mut out[at..]);
                at += PAIR_FRAME;
            }
        }
        at
    }

    // Writes the joins at a quote. Returns how many bytes.
    pub fn write_joins(&self, out: &mut [u8]) -> usize
        requires { length (join_frames self.now) ≤ length out.old }
        ensures value { result ≡ length (join_frames self.now) }
        ensures out_after { out.new ≡ laid (join_frames self.now) out.old }
    {
        let at = self.write_gained(out);
        let end = self.end.after;
        let enters = self.lower_ends[(end - self.first) as usize] < self.start.after;
        let used = write_one(PAIR_JOIN, end, enters, &mut out[at..]);
        at + used
    }
}
