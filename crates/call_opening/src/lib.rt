// The opening: new settings, and nothing in the tables and watches.
#![tactic(auto)]

ghost use Rattle.std.specs.Prelude.{◌≡◌, length, take};
ghost use Rattle.lent_tables.specs.Lent.{lent_mut, SameLoan};
ghost use Rattle.model.specs.Promises.{Opened};

use call_judging::judge_loan;
use head::{Head, Reply};
use lent_tables::LentTablesMut;
use table_cells::clear;
use watch_numbers::WatchReply;

// Begins a new book: the head is fresh, the places of the tables are zeros, and nothing is watched.
pub fn open(
    dimensions: u32,
    capacity: u32,
    directions: u32,
    tables: &mut LentTablesMut<'_>,
    watches: [u64; 8],
    records: usize,
) -> WatchReply
    ensures same_loan { SameLoan tables.old tables.new }
    ensures opened { Opened dimensions capacity directions (lent_mut tables.old) (take records watches)
        result.reply (lent_mut tables.new) (take records result.watches) }
    ensures watches_len { length result.watches ≡ 8 }
{
    let head = Head::fresh(dimensions, capacity, directions);
    if let Err(refusal) = judge_loan(head, &tables.to_read(), records) {
        return WatchReply {
            reply: Reply::refused(refusal, Head::fresh(0, 0, 0)),
            watches,
        };
    }
    let n = capacity as usize;
    clear(tables.columns, 0, n * (dimensions as usize));
    clear(tables.positions, 0, n);
    clear(tables.lower_ends, 0, n);
    clear(tables.upper_ends, 0, n);
    WatchReply {
        reply: Reply::accepted(head, 0),
        watches: [0; 8],
    }
}
