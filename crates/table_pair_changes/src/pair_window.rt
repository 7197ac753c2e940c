// The window of the pair at a quote, and what is known of the rows that it holds.
ghost use Rattle.std.specs.Prelude.{◌≡◌, ◌-◌, ◌||◌, not, false, []};
ghost use Rattle.table_changes.specs.Sought.{Unequal};
ghost use Rattle.table_pair_changes.specs.Pairs.{falls, gained, dropped_from, Ready};

use table_changes::Shift;

// The window of the pair at a quote: the ends of the rows held before it, the position of the first of them, how the window's start and
// its end move, and whether the ends are known to be as calls leave them.
#[derive(Clone, Copy)]
pub struct PairWindow<'a> {
    pub lower_ends: &'a [u32],
    pub upper_ends: &'a [u32],
    pub first: u32,
    pub start: Shift,
    pub end: Shift,
    pub sound: bool,
    pub ghost ready: { Ready first lower_ends.now upper_ends.now start end },
    pub ghost late: { Unequal upper_ends.now end.after (start.after - first) (end.after - first) (dropped_from first lower_ends.now start end sound) },
    pub ghost gains: { (falls first upper_ends.now start end || not sound) ≡ false → gained first lower_ends.now upper_ends.now start end ≡ [] },
}
