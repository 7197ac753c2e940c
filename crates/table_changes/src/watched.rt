// A watch at a quote, and what is known of how its window moves.
ghost use Rattle.std.specs.Prelude.{◌≡◌, ◌+◌, ◌≤◌};
ghost use Rattle.skyline.specs.Skyline.{window_start};
ghost use Rattle.table_finding.specs.Found.{rows};
ghost use Rattle.table_changes.specs.Held.{held, Ready};

use crate::Shift;
use crate::before::Before;
use crate::kinds::Kinds;

// A watch at a quote: the rows held before it, the kinds of the watch's changes, its n, and how its window moves.
#[derive(Clone, Copy)]
pub struct Watched<'a> {
    pub before: &'a Before<'a>,
    pub kinds: Kinds,
    pub n: u16,
    pub shift: Shift,
    pub ghost ready: { Ready (held before.now.first before.now.head.held before.now.tables.lower_ends.now
        (rows before.now.head.dimensions before.now.head.directions before.now.tables.columns.now before.now.tables.upper_ends.now before.now.quote.now)) shift },
    pub ghost stays: { window_start (before.now.head.newest + 1) before.now.head.capacity ≤ shift.after },
}
