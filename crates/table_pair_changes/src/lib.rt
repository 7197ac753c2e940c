// The changes that a quote makes to the past list of the pair, by the rows held before it, written as frames.
#![tactic(auto)]

ghost use Rattle.std.specs.Prelude.{◌≡◌, ◌≤◌, true, length};
ghost use Rattle.lists.specs.Lists.{laid};
ghost use Rattle.skyline.specs.Skyline.{window_start};
ghost use Rattle.table_pair_changes.specs.Pairs.{pair_frames, Sound, Paired};

mod joins;
mod leaves;
mod pair_window;
mod windows;

use head::Head;
use lent_tables::LentTables;
use pair_window::PairWindow;
use table_changes::shift_of;
use table_listing::start_of;
use windows::{begun, end_of};

// Writes the pair's changes at a quote: the leaves, then the joins; sound says that the rows' ends are as calls leave them. Returns how
// many bytes.
pub fn write_pair_changes(head: Head, tables: &LentTables<'_>, sound: bool, out: &mut [u8]) -> usize
    requires paired { Paired head tables.now.lower_ends.now tables.now.upper_ends.now }
    requires sound { sound ≡ true → Sound (window_start head.newest head.capacity) head.held
        tables.now.lower_ends.now tables.now.upper_ends.now }
    requires upper_ends_in_bounds { length (pair_frames head tables.now.lower_ends.now tables.now.upper_ends.now)
        ≤ length out.old }
    ensures value { result ≡ length (pair_frames head tables.now.lower_ends.now tables.now.upper_ends.now) }
    ensures out_after { out.new ≡ laid
        (pair_frames head tables.now.lower_ends.now tables.now.upper_ends.now) out.old }
{
    if !begun(head) {
        return 0;
    }
    let first = start_of(head, head.capacity);
    let start = shift_of(head, head.n2);
    let end = end_of(head);
    let window = PairWindow {
        lower_ends: tables.lower_ends,
        upper_ends: tables.upper_ends,
        first,
        start,
        end,
        sound,
    };
    let leaves = window.write_leaves(out);
    let joins = window.write_joins(&mut out[leaves..]);
    leaves + joins
}
