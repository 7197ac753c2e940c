// The calls of a book for callers that hold plain values: the eight records go in by value. Those here change no record; those that may hand
// the records back (src/changed.rt).
#![tactic(auto)]

mod changed;

ghost use Rattle.lent_tables.specs.Lent.{lent, lent_mut, SameLoan};
ghost use Rattle.model.specs.Promises.{Quoted, QuotedLooked, Previewed, Paired, Unpaired};
ghost use Rattle.watch_records.specs.Records.{watched};

pub use changed::{RecordReply, end, open, watch};
use head::{BothReply, Effect, Head, Reply, Watch};
use lent_tables::{LentTables, LentTablesMut};

// Takes a quote.
pub fn quote(
    head: Head,
    quoted: &[u32],
    tables: &mut LentTablesMut<'_>,
    records: [Watch; 8],
    out: &mut [u8],
) -> Reply
    ensures same_loan { SameLoan tables.old tables.new }
    ensures made { Quoted head quoted.now
        (lent_mut tables.old)
        (watched records) out.old result
        (lent_mut tables.new)
        out.new }
{
    let held = records;
    book_shared_records::quote(head, quoted, tables, &held, out)
}

// Takes a quote and looks at the list of n behind it, in one.
pub fn both(
    head: Head,
    quoted: &[u32],
    n: u32,
    tables: &mut LentTablesMut<'_>,
    records: [Watch; 8],
    out: &mut [u8],
    cells: &mut [u32],
) -> BothReply
    ensures same_loan { SameLoan tables.old tables.new }
    ensures made { QuotedLooked head quoted.now n
        (lent_mut tables.old)
        (watched records) out.old cells.old result
        (lent_mut tables.new)
        out.new cells.new }
{
    let held = records;
    book_shared_records::both(head, quoted, n, tables, &held, out, cells)
}

// Previews a quote.
pub fn preview(
    head: Head,
    quoted: &[u32],
    tables: &LentTables<'_>,
    records: [Watch; 8],
    out: &mut [u8],
) -> Effect
    ensures { Previewed head quoted.now
        (lent tables.now)
        (watched records) out.old result out.new }
{
    let held = records;
    book_shared_records::preview(head, quoted, tables, &held, out)
}

// Sets the watch of a pair.
pub fn pair(
    head: Head,
    n1: u32,
    n2: u32,
    tables: &LentTables<'_>,
    records: [Watch; 8],
    out: &mut [u8],
) -> Reply
    ensures { Paired head n1 n2
        (lent tables.now)
        (watched records) out.old result out.new }
{
    let held = records;
    book_shared_records::pair(head, n1, n2, tables, &held, out)
}

// Ends the watch of the pair.
pub fn unpair(head: Head, tables: &LentTables<'_>, records: [Watch; 8]) -> Reply
    ensures { Unpaired head
        (lent tables.now)
        (watched records) result }
{
    let held = records;
    book_shared_records::unpair(head, tables, &held)
}
