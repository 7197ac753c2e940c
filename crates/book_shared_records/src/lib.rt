// The calls that read the lent watch records and change none: the quote, the quote and look in one, the preview, the watch of the pair and its end.
#![tactic(auto)]

ghost use Rattle.watch_records.specs.Records.{watched};
ghost use Rattle.lent_tables.specs.Lent.{lent, lent_mut, SameLoan};
ghost use Rattle.model.specs.Promises.{Quoted, Previewed, QuotedLooked, Paired, Unpaired};

use head::{BothReply, Effect, Head, Reply, Watch};
use lent_tables::{LentTables, LentTablesMut};
use watch_records::numbers;

// Takes a quote: writes the changes of every watch, puts the quote's row into the tables, and hands back the next head
// and how many bytes were written.
pub fn quote(
    head: Head,
    quote: &[u32],
    tables: &mut LentTablesMut<'_>,
    watches: &[Watch],
    out: &mut [u8],
) -> Reply
    ensures same_loan { SameLoan tables.old tables.new }
    ensures made { Quoted head quote.now
        (lent_mut tables.old)
        (watched watches.now) out.old result
        (lent_mut tables.new)
        out.new }
{
    let before = numbers(watches);
    let records = watches.len();
    call_quoting::quote(head, quote, tables, before, records, out)
}

// Takes a quote as `quote` does and, on the book after it, writes the positions of the list of n into cells as `look` does: both, or neither
// where either is refused. Hands back the quote's reply, and how many positions were written.
pub fn both(
    head: Head,
    quote: &[u32],
    n: u32,
    tables: &mut LentTablesMut<'_>,
    watches: &[Watch],
    out: &mut [u8],
    cells: &mut [u32],
) -> BothReply
    ensures same_loan { SameLoan tables.old tables.new }
    ensures made { QuotedLooked head quote.now n
        (lent_mut tables.old)
        (watched watches.now) out.old cells.old result
        (lent_mut tables.new)
        out.new cells.new }
{
    let before = numbers(watches);
    let records = watches.len();
    call_quote_looking::both(head, quote, n, tables, before, records, out, cells)
}

// Previews a quote: writes the changes that it would bring and hands back its answer, how many bytes, and the counts of live and held rows
// that it would leave. The head handed back is the one that came; tables and records stay.
pub fn preview(
    head: Head,
    quote: &[u32],
    tables: &LentTables<'_>,
    watches: &[Watch],
    out: &mut [u8],
) -> Effect
    ensures { Previewed head quote.now
        (lent tables.now)
        (watched watches.now)
        out.old result out.new }
{
    let before = numbers(watches);
    let records = watches.len();
    call_previewing::preview(head, quote, tables, before, records, out)
}

// Sets the watch of the pair n1 and n2 and writes a join for each position of its past list; hands back the head with the pair and how many bytes.
pub fn pair(
    head: Head,
    n1: u32,
    n2: u32,
    tables: &LentTables<'_>,
    watches: &[Watch],
    out: &mut [u8],
) -> Reply
    ensures { Paired head n1 n2
        (lent tables.now)
        (watched watches.now)
        out.old result out.new }
{
    let before = numbers(watches);
    let records = watches.len();
    call_watching::pair(head, n1, n2, tables, before, records, out)
}

// Ends the watch of the pair.
pub fn unpair(head: Head, tables: &LentTables<'_>, watches: &[Watch]) -> Reply
    ensures { Unpaired head
        (lent tables.now)
        (watched watches.now) result }
{
    let before = numbers(watches);
    let records = watches.len();
    call_watching::unpair(head, tables, before, records)
}
