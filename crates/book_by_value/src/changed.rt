// The calls of a book that may change its records, for callers that hold plain values: the eight records go in and come
// back by value.
ghost use Rattle.lent_tables.specs.Lent.{lent, lent_mut, SameLoan};
ghost use Rattle.model.specs.Promises.{Opened, Watched, Ended};
ghost use Rattle.watch_records.specs.Records.{watched};

use head::{Desk, Head, Reply, Watch};
use lent_tables::{LentTables, LentTablesMut};

// What a call that may change the records hands back: its reply, and the records.
#[derive(Clone, Copy)]
pub struct RecordReply {
    pub reply: Reply,
    pub records: [Watch; 8],
}

// Begins a new book.
pub fn open(
    dimensions: u32,
    capacity: u32,
    directions: u32,
    tables: &mut LentTablesMut<'_>,
    records: [Watch; 8],
) -> RecordReply
    ensures same_loan { SameLoan tables.old tables.new }
    ensures made { Opened dimensions capacity directions
        (lent_mut tables.old)
        (watched records) result.reply
        (lent_mut tables.new)
        (watched result.records) }
{
    let mut held = records;
    let reply = book::open(dimensions, capacity, directions, tables, &mut held);
    RecordReply {
        reply,
        records: held,
    }
}

// Sets a desk's watch of n.
pub fn watch(
    head: Head,
    desk: Desk,
    n: u32,
    tables: &LentTables<'_>,
    records: [Watch; 8],
    out: &mut [u8],
) -> RecordReply
    ensures { Watched head desk n
        (lent tables.now)
        (watched records) out.old result.reply (watched result.records) out.new }
{
    let mut held = records;
    let reply = book::watch(head, desk, n, tables, &mut held, out);
    RecordReply {
        reply,
        records: held,
    }
}

// Ends a desk's watch of n.
pub fn end(
    head: Head,
    desk: Desk,
    n: u32,
    tables: &LentTables<'_>,
    records: [Watch; 8],
) -> RecordReply
    ensures { Ended head desk n
        (lent tables.now)
        (watched records) result.reply (watched result.records) }
{
    let mut held = records;
    let reply = book::end(head, desk, n, tables, &mut held);
    RecordReply {
        reply,
        records: held,
    }
}
