// A quote and, behind it, a look at the list of n, in one, by the quote's own stages: both are judged; what the quote does to the rows is
// found; the quote is entered; the list is written from the tables that it leaves. Nothing is judged or compared twice.
#![tactic(auto)]

ghost use Rattle.std.specs.Prelude.{◌≡◌, ◌≤◌, true, ◌&&◌, ltb, length, take, drop};
ghost use Rattle.lists.specs.Lists.{laid};
ghost use Rattle.head.specs.Heads.{last_position};
ghost use Rattle.refusals.specs.Refusals.{number_of};
ghost use Rattle.model.specs.Calls.{Reached};
ghost use Rattle.lent_tables.specs.Lent.{lent, lent_mut, SameLoan};
ghost use Rattle.model.specs.Promises.{world, QuotedLooked};
ghost use Rattle.table_cells.specs.Marked.{Below};
ghost use Rattle.call_quoting.specs.Known.{Known};
ghost use Rattle.call_quote_looking.specs.Looks.{sized_answer, stabbed_places, count_after, Countable, first_place, list_after, Writable};
ghost use Rattle.call_quote_looking.specs.Made.{refusal, acceptance, BothMade};

use call_judging::{out_of_range, refuse_if};
use call_quoting::{Entered, enter, judge};
use call_settling::{Finding, find};
use head::{BothReply, Head, PLACES, Reply};
use lent_tables::{LentTables, LentTablesMut};
use refusals::Refusal;
use table_changes::shift_of;
use table_listing::{RowWindow, start_of};

// What a quote and look in one hands back, and how many places later its rows begin where none was moved.
#[derive(Clone, Copy)]
pub struct BothEntered {
    pub both: BothReply,
    pub by: usize,
}

// What is handed back where neither is taken.
fn refuse(head: Head, why: Refusal) -> BothEntered
    ensures { result ≡ refusal head (Err why) }
{
    BothEntered {
        both: BothReply {
            reply: Reply {
                answer: Err(why),
                head,
                count: 0,
            },
            listed: 0,
        },
        by: 0,
    }
}

// The answer of a quote with an output of this length and, behind it, of a look at the list of n but for its cells: 3, 11, 12, 4, 6, 13, 5.
fn judge_both(
    reachable: bool,
    head: Head,
    quote: &[u32],
    n: u32,
    tables: &LentTables<'_>,
    watches: [u64; 8],
    records: usize,
    room: usize,
) -> Result<(), Refusal>
    requires { reachable ≡ true → Reached (world head (lent tables.now) (take records watches)) }
    ensures { number_of result ≡ sized_answer head quote.now n (lent tables.now) (take records watches) room }
{
    judge(reachable, head, quote, tables, watches, records, room)?;
    refuse_if(out_of_range(head, n), Refusal::WindowSize)
}

// How many of the rows at these places the start of a window stabs; the row at place 0 has position first.
fn count_stabbed(places: &[u16], lower_ends: &[u32], first: u32, start: u32) -> usize
    requires first_le_last_position { first ≤ last_position }
    requires below { Below places.now (length lower_ends.now) }
    ensures { result ≡ length (stabbed_places first start lower_ends.now places.now) }
{
    let mut count: usize = 0;
    for &place in places {
        let i = place as usize;
        let position = first + (i as u32);
        count += ((lower_ends[i] < start) & (start <= position)) as usize;
    }
    count
}

// Whether the list of n, whose window starts here once the quote stands, has more positions than this space, by the rows before the quote and
// what was found of it, with the retired rows at listed places. It has at most n, so with space for n they are not counted.
fn short_cells(
    head: Head,
    n: u32,
    start: u32,
    found: Finding,
    places: &[u16],
    tables: &LentTables<'_>,
    space: usize,
) -> bool
    requires at_in_bounds { found.at ≤ length places.now }
    requires countable { Countable head start (drop found.at places.now) tables.now.lower_ends.now tables.now.upper_ends.now }
    ensures { result ≡ (ltb space n && ltb space
        (count_after head start found.lower (drop found.at places.now) tables.now.lower_ends.now
        tables.now.upper_ends.now)) }
{
    if (n as usize) <= space {
        return false;
    }
    let first = start_of(head, head.capacity);
    let window = RowWindow {
        first,
        start,
        end: head.newest,
        lower_ends: tables.lower_ends,
        upper_ends: tables.upper_ends,
    };
    let stabbed = window.count_listed();
    let lost = count_stabbed(&places[found.at..], tables.lower_ends, first, start);
    space + lost < stabbed + ((found.lower < start) as usize)
}

// The place at which the rows begin once a quote is entered: so many places on in a reachable book, where none was moved.
fn first_place(reachable: bool, by: usize) -> usize
    ensures { result ≡ first_place reachable by }
{
    if reachable { by } else { 0 }
}

// Writes the list of the window from here on of the book that an entered quote leaves to the front of the cells, and hands back what both tell.
fn look_after(
    reachable: bool,
    entered: Entered,
    start: u32,
    tables: &LentTables<'_>,
    cells: &mut [u32],
) -> BothEntered
    requires { Writable reachable entered start tables.now.lower_ends.now tables.now.upper_ends.now (length cells.old) }
    ensures value { result ≡ acceptance entered (length
        (list_after reachable entered start tables.now.lower_ends.now tables.now.upper_ends.now)) }
    ensures cells_after { cells.new ≡ laid (list_after reachable entered start tables.now.lower_ends.now tables.now.upper_ends.now) cells.old }
{
    let head = entered.reply.head;
    let from = first_place(reachable, entered.by);
    let first = start_of(head, head.capacity);
    let window = RowWindow {
        first,
        start,
        end: head.newest,
        lower_ends: &tables.lower_ends[from..],
        upper_ends: &tables.upper_ends[from..],
    };
    BothEntered {
        both: BothReply {
            reply: entered.reply,
            listed: window.write_listed(cells),
        },
        by: entered.by,
    }
}

// Takes a quote and a look behind it on tables of which this is known: that they hold a reachable book and have a place to spare, or nothing.
pub fn both_known(
    reachable: bool,
    head: Head,
    quote: &[u32],
    n: u32,
    tables: &mut LentTablesMut<'_>,
    watches: [u64; 8],
    records: usize,
    out: &mut [u8],
    cells: &mut [u32],
) -> BothEntered
    requires { Known reachable head (lent_mut tables.old) (take records watches) }
    ensures same_loan { SameLoan tables.old tables.new }
    ensures both_made { BothMade reachable head quote.now n (lent_mut tables.old) (take records watches) out.old
        cells.old result (lent_mut tables.new) out.new cells.new }
{
    let read = tables.to_read();
    if let Err(why) = judge_both(
        reachable,
        head,
        quote,
        n,
        &read,
        watches,
        records,
        out.len(),
    ) {
        return refuse(head, why);
    }
    let mut places = [0u16; PLACES];
    let found = find(reachable, head, quote, &read, &mut places);
    let start = shift_of(head, n).after;
    if short_cells(head, n, start, found, &places, &read, cells.len()) {
        return refuse(head, Refusal::ShortOutput);
    }
    let entered = enter(head, found, &places, quote, tables, watches, out);
    look_after(reachable, entered, start, &tables.to_read(), cells)
}

// Takes a quote and a look behind it on any tables.
pub fn both(
    head: Head,
    quote: &[u32],
    n: u32,
    tables: &mut LentTablesMut<'_>,
    watches: [u64; 8],
    records: usize,
    out: &mut [u8],
    cells: &mut [u32],
) -> BothReply
    ensures same_loan { SameLoan tables.old tables.new }
    ensures quoted_looked { QuotedLooked head quote.now n (lent_mut tables.old) (take records watches) out.old
        cells.old result (lent_mut tables.new) out.new cells.new }
{
    both_known(false, head, quote, n, tables, watches, records, out, cells).both
}
