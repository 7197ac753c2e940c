// The calls that change the lent watch records and no table: a desk's watch and its end.
#![tactic(auto)]

ghost use Rattle.watch_records.specs.Records.{watched};
ghost use Rattle.lent_tables.specs.Lent.{lent};
ghost use Rattle.model.specs.Promises.{Watched, Ended};

use call_watching::{end_watch, set_watch};
use head::{Desk, Head, Reply, Watch};
use lent_tables::LentTables;
use watch_records::{insert_record, numbers, remove_record};

// Sets a desk's watch of n and writes a join for each position of its list; hands back how many bytes.
pub fn watch(
    head: Head,
    desk: Desk,
    n: u32,
    tables: &LentTables<'_>,
    watches: &mut [Watch],
    out: &mut [u8],
) -> Reply
    ensures { Watched head desk n
        (lent tables.now)
        (watched watches.old) out.old
        result (watched watches.new) out.new }
{
    let before = numbers(watches);
    let records = watches.len();
    let judged = set_watch(head, desk, n, tables, before, records, out);
    if let Err(_) = judged.answer {
        return judged;
    }
    insert_record(watches, desk, n);
    judged
}

// Ends a desk's watch of n.
pub fn end(head: Head, desk: Desk, n: u32, tables: &LentTables<'_>, watches: &mut [Watch]) -> Reply
    ensures { Ended head desk n
        (lent tables.now)
        (watched watches.old) result (watched watches.new) }
{
    let before = numbers(watches);
    let records = watches.len();
    let judged = end_watch(head, desk, n, tables, before, records);
    if let Err(_) = judged.answer {
        return judged;
    }
    remove_record(watches, desk, n);
    judged
}
