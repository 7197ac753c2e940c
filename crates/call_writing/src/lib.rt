// The changes of a quote, written on shared tables, and what an accepted quote hands back.
#![tactic(auto)]

ghost use Rattle.std.specs.Prelude.{◌≡◌, length};
ghost use Rattle.lists.specs.Lists.{laid};
ghost use Rattle.call_settling.specs.Findings.{held_rows};
ghost use Rattle.call_writing.specs.Bytes.{change_bytes, SoundIf, Writable, accepted_reply};

use call_settling::Finding;
use head::{Head, Reply};
use lent_tables::LentTables;
use table_changes::{Before, write_all_changes};
use table_listing::start_of;
use table_pair_changes::write_pair_changes;

// Writes the changes of every watch, and behind them those of the pair; retired has the places of the rows that the quote retires.
// Returns how many bytes.
pub fn write(
    head: Head,
    found: Finding,
    retired: &[u16],
    quote: &[u32],
    tables: &LentTables<'_>,
    watches: [u64; 8],
    out: &mut [u8],
) -> usize
    requires writable { Writable head found.lower retired.now tables.now.lower_ends.now
        (held_rows head quote.now tables.now.columns.now tables.now.upper_ends.now) watches (length out.old) }
    requires sound_if { SoundIf found.reachable head tables.now.lower_ends.now
        (held_rows head quote.now tables.now.columns.now tables.now.upper_ends.now) }
    ensures value { result ≡ length (change_bytes head found.lower tables.now.lower_ends.now
        (held_rows head quote.now tables.now.columns.now tables.now.upper_ends.now) watches) }
    ensures out_after { out.new ≡ laid (change_bytes head found.lower tables.now.lower_ends.now
        (held_rows head quote.now tables.now.columns.now tables.now.upper_ends.now) watches)
        out.old }
{
    let first = start_of(head, head.capacity);
    let before = Before {
        head,
        tables: *tables,
        first,
        quote,
        retired,
        lower: found.lower,
        sound: found.reachable,
    };
    let watched = write_all_changes(&before, watches, out);
    let paired = write_pair_changes(head, tables, found.reachable, &mut out[watched..]);
    watched + paired
}

// What an accepted quote hands back by what was found, once so many bytes are written.
pub fn accept(head: Head, found: Finding, count: usize) -> Reply
    ensures { result ≡ accepted_reply head found.live found.held count }
{
    let after = head.after_quote(found.live, found.held);
    Reply::accepted(after, count)
}
