// The leaves that a quote makes in the past list of the pair: of the row at the window's old start, then of the rows that its new end is
// over.
ghost use Rattle.std.specs.Prelude.{◌≡◌, ◌≤◌, length};
ghost use Rattle.lists.specs.Lists.{laid};
ghost use Rattle.table_pair_changes.specs.Pairs.{dropped_from};
ghost use Rattle.table_pair_changes.specs.Frames.{dropped_frames, leave_frames};

use crate::pair_window::PairWindow;
use crate::windows::write_one;
use frames::PAIR_LEAVE;
use head::PAIR_FRAME;
use octets::lay_position;
use table_changes::next_equal;

impl PairWindow<'_> {
    // The place from which on rows may leave by their upper end: on a sound book behind the lower end of the row at the new end.
    #[tactic(auto, unfolding(crate::specs::Pairs::dropped_from))]
    fn dropped_from(&self) -> usize
        ensures { result ≡ dropped_from self.now.first self.now.lower_ends.now self.now.start self.now.end
            self.now.sound }
    {
        let after = self.start.after;
        let lower = self.lower_ends[(self.end.after - self.first) as usize];
        if self.sound & (after <= lower) {
            return (lower + 1 - self.first) as usize;
        }
        (after - self.first) as usize
    }

    // Writes the leave of each row of the window whose upper end is the new end and that was listed. Returns how many bytes. The loop over the
    // rows that are gained has another key, test and kind: to be one with this, both would need a trait of these three, which is more than
    // the loop.
    fn write_dropped(&self, out: &mut [u8]) -> usize
        requires { length (dropped_frames self.now) ≤ length out.old }
        ensures value { result ≡ length (dropped_frames self.now) }
        ensures out_after { out.new ≡ laid (dropped_frames self.now) out.old }
    {
        let end = self.end.after;
        let to = (end - self.first) as usize;
        let mut at: usize = 0;
        let mut next = next_equal(self.upper_ends, self.dropped_from(), to, end);
        while let Some(i) = next {
            let leaves = self.lower_ends[i] < self.start.before;
            next = next_equal(self.upper_ends, i + 1, to, end);
            if leaves {
                lay_position(PAIR_LEAVE, self.first + i as u32, &mut out[at..]);
                at += PAIR_FRAME;
            }
        }
        at
    }

    // Writes the leaves at a quote. Returns how many bytes.
    pub fn write_leaves(&self, out: &mut [u8]) -> usize
        requires { length (leave_frames self.now) ≤ length out.old }
        ensures value { result ≡ length (leave_frames self.now) }
        ensures out_after { out.new ≡ laid (leave_frames self.now) out.old }
    {
        let fallen = self.falls();
        let at = write_one(PAIR_LEAVE, self.start.before, fallen, out);
        let used = self.write_dropped(&mut out[at..]);
        at + used
    }
}
