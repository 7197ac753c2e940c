// How the window of the pair moves at a quote, and the frame of one position.
ghost use Rattle.std.specs.Prelude.{◌≡◌, ◌+◌, ◌≤◌, ◌<◌, [], map, length};
ghost use Rattle.lists.specs.Lists.{keep, laid};
ghost use Rattle.head.specs.Heads.{last_position};
ghost use Rattle.frames.specs.declared.Message.TheVariants.{Position};
ghost use Rattle.model.specs.Changes.{frames};
ghost use Rattle.table_pair_changes.specs.Pairs.{lasts, falls, begun, end_shift};

use crate::pair_window::PairWindow;
use head::{Head, PAIR_FRAME};
use octets::lay_position;
use table_changes::Shift;

// Whether a pair stands, and the next quote brings its window a position. An n1 of 0 stands for no pair, as in the saved head of the C
// interface.
#[tactic(auto, unfolding(crate::specs::Pairs::begun))]
pub fn begun(head: Head) -> bool
    requires { head.newest < last_position }
    ensures { result ≡ begun head }
{
    (head.n1 != 0) & (head.n1 <= head.newest + 1)
}

// How the end of the window of the pair moves at a quote.
pub fn end_of(head: Head) -> Shift
    requires newest_lt_last_position { head.newest < last_position }
    requires n1_bound { head.n1 ≤ head.newest + 1 }
    ensures { result ≡ end_shift head }
{
    let before = head.newest + 1 - head.n1;
    Shift {
        before,
        after: before + 1,
    }
}

// Whether an upper end does not lie in a window up to a position.
pub fn lasts(end: u32, upper: u32) -> bool
    ensures { result ≡ lasts end upper }
{
    (upper == 0) | (end < upper)
}

impl PairWindow<'_> {
    // Whether the row at the window's old start leaves the list: the window moves past it, and it was listed.
    #[tactic(auto, unfolding(crate::specs::Pairs::falls))]
    pub fn falls(&self) -> bool
        ensures { result ≡ falls self.now.first self.now.upper_ends.now self.now.start self.now.end }
    {
        let start = self.start.before;
        start < self.start.after
            && lasts(
                self.end.before,
                self.upper_ends[(start - self.first) as usize],
            )
    }
}

// Writes the frame of a kind and a position, if it is asked for. Returns how many bytes. The test stands beside the position, as in `keep`,
// since both callers have it as a test and would only wrap it.
pub fn write_one(kind: u8, position: u32, asked: bool, out: &mut [u8]) -> usize
    requires { length (frames (map (Position kind) (keep asked position []))) ≤ length out.old }
    ensures value { result ≡ length (frames (map (Position kind) (keep asked position []))) }
    ensures out_after { out.new ≡ laid (frames (map (Position kind) (keep asked position [])))
        out.old }
{
    if !asked {
        return 0;
    }
    lay_position(kind, position, out);
    PAIR_FRAME
}
