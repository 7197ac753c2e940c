// The quote in stages: it is judged; what it does to the rows is found; its changes are written; the tables are settled, one at a time.
// There is one set of stages for any tables and for a reachable book in tables with a place to spare, where no row is moved.
#![tactic(auto)]

ghost use Rattle.std.specs.Prelude.{◌≡◌, true, length, take};
ghost use Rattle.model.specs.Book.{quote_answer};
ghost use Rattle.lent_tables.specs.Lent.{lent_mut, SameLoan};
ghost use Rattle.model.specs.Promises.{Quoted};
ghost use Rattle.call_settling.specs.Findings.{Finds};
ghost use Rattle.call_quoting.specs.Known.{Known};
ghost use Rattle.call_quoting.specs.Entered.{QuoteEntered};

mod judged;

use call_settling::{Finding, find, settle, settle_lower_ends, settle_upper_ends};
use call_writing::{accept, write};
use head::{Head, PLACES, Reply};
pub use judged::judge;
use lent_tables::LentTablesMut;

// What a quote hands back, and how many places later its rows begin where none was moved.
#[derive(Clone, Copy)]
pub struct Entered {
    pub reply: Reply,
    pub by: usize,
}

// Enters an accepted quote by what was found.
pub fn enter(
    head: Head,
    found: Finding,
    places: &[u16],
    quote: &[u32],
    tables: &mut LentTablesMut<'_>,
    watches: [u64; 8],
    out: &mut [u8],
) -> Entered
    requires out_value { quote_answer head quote.now (lent_mut tables.old) watches (length out.old) ≡ 0 }
    requires finds { Finds head quote.now tables.old.columns.now tables.old.upper_ends.now places.now found }
    requires known { Known found.reachable head (lent_mut tables.old) watches }
    ensures same_loan { SameLoan tables.old tables.new }
    ensures entered { QuoteEntered found.reachable head quote.now (lent_mut tables.old) watches out.old result
        (lent_mut tables.new) out.new }
{
    let retired = &places[found.at..];
    let count = write(head, found, retired, quote, &tables.to_read(), watches, out);
    settle(head, found, head.dimensions as usize, quote, tables.columns);
    settle(head, found, 1, &[head.newest + 1], tables.positions);
    settle_lower_ends(head, found, tables.lower_ends);
    settle_upper_ends(head, found, retired, tables.upper_ends);
    Entered {
        reply: accept(head, found, count),
        by: found.by,
    }
}

// Takes a quote on tables of which this is known: that they hold a reachable book and have a place to spare, or nothing.
pub fn quote_known(
    reachable: bool,
    head: Head,
    quote: &[u32],
    tables: &mut LentTablesMut<'_>,
    watches: [u64; 8],
    records: usize,
    out: &mut [u8],
) -> Entered
    requires { Known reachable head (lent_mut tables.old) (take records watches) }
    ensures same_loan { SameLoan tables.old tables.new }
    ensures entered { QuoteEntered reachable head quote.now (lent_mut tables.old) (take records watches) out.old
        result (lent_mut tables.new) out.new }
{
    let read = tables.to_read();
    if let Err(refusal) = judge(reachable, head, quote, &read, watches, records, out.len()) {
        return Entered {
            reply: Reply::refused(refusal, head),
            by: 0,
        };
    }
    let mut places = [0u16; PLACES];
    let found = find(reachable, head, quote, &read, &mut places);
    enter(head, found, &places, quote, tables, watches, out)
}

// Takes a quote on any tables.
pub fn quote(
    head: Head,
    quote: &[u32],
    tables: &mut LentTablesMut<'_>,
    watches: [u64; 8],
    records: usize,
    out: &mut [u8],
) -> Reply
    ensures same_loan { SameLoan tables.old tables.new }
    ensures quoted { Quoted head quote.now (lent_mut tables.old) (take records watches) out.old result
        (lent_mut tables.new) out.new }
{
    quote_known(false, head, quote, tables, watches, records, out).reply
}
