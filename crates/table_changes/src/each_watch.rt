// The changes that a quote makes to the lists of the eight watches, written as frames.
ghost use Rattle.std.specs.Prelude.{◌≡◌, ◌≤◌, ◌<◌, false, length};
ghost use Rattle.lists.specs.Lists.{laid};
ghost use Rattle.head.specs.Heads.{last_position};
ghost use Rattle.model.specs.Book.{torn_watches};
ghost use Rattle.table_changes.specs.Watches.{shift_of, Sized};
ghost use Rattle.table_changes.specs.Frames.{frames_of, frames_by, change_frames};

use crate::Shift;
use crate::before::Before;
use crate::kinds::kinds_of;
use crate::watched::Watched;
use head::Head;
use table_listing::start_of;
use watch_numbers::size_of;

// How the window of n moves at a quote.
pub fn shift_of(head: Head, n: u32) -> Shift
    requires { head.newest < last_position }
    ensures { result ≡ shift_of head.newest n }
{
    let before = start_of(head, n);
    Shift {
        before,
        after: before + u32::from(n <= head.newest),
    }
}

// The watch of a record at a quote.
fn watched<'a>(before: &'a Before<'a>, watch: u64) -> Watched<'a>
    requires sized { Sized before.now.head.capacity watch }
    requires watch_nonzero { 0 < watch }
    ensures { change_frames result ≡ frames_of before.now watch }
{
    let n = size_of(watch);
    let kinds = kinds_of(watch);
    let shift = shift_of(before.head, n);
    Watched {
        before,
        kinds,
        n: n as u16,
        shift,
    }
}

// Writes the changes of a watch record; none for an empty record, which is 0, as in the saved watches of the C interface. Returns how many
// bytes.
fn write_watch(before: &Before<'_>, watch: u64, out: &mut [u8]) -> usize
    requires sized { Sized before.now.head.capacity watch }
    requires watch_in_bounds { length (frames_of before.now watch) ≤ length out.old }
    ensures value { result ≡ length (frames_of before.now watch) }
    ensures out_after { out.new ≡ laid (frames_of before.now watch) out.old }
{
    if watch == 0 {
        return 0;
    }
    let watched = watched(before, watch);
    if watched.still() {
        return watched.write_dropped(out);
    }
    watched.write_changes(out)
}

// Writes the changes of all watches at a quote, each watch's behind the frames already written. Returns how many bytes.
pub fn write_all_changes(before: &Before<'_>, watches: [u64; 8], out: &mut [u8]) -> usize
    requires watches_value { torn_watches before.now.head.capacity watches ≡ false }
    requires watches_in_bounds { length (frames_by before.now watches) ≤ length out.old }
    ensures value { result ≡ length (frames_by before.now watches) }
    ensures out_after { out.new ≡ laid (frames_by before.now watches) out.old }
{
    let mut at: usize = 0;
    for watch in watches {
        at += write_watch(before, watch, &mut out[at..]);
    }
    at
}
