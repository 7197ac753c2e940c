// The calls for a C host that write the tables or would: the opening, the quote and its preview.
#![tactic(auto)]

ghost use Rattle.std.specs.Prelude.{◌≡◌};
ghost use Rattle.refusals.specs.Refusals.{granted};
ghost use Rattle.model.specs.Promises.{tables, Opened, Quoted, Previewed};
ghost use Rattle.host_cells.specs.Cells.{head_in, records_in, Answered, Hands, Counts, OnlyEight};

use head::Head;
use host_cells::{head_of, number_of, records_of, store_head, store_records};
use host_loans::short_answer;
use lent_tables::{LentTables, LentTablesMut};

// Begins a new book. A refused opening leaves the head, so that the book before it goes on.
#[unsafe(no_mangle)]
pub extern "C" fn bqb_open(
    dimensions: u32,
    capacity: u32,
    directions: u32,
    head: &mut [u32; 8],
    columns: &mut [u32],
    positions: &mut [u32],
    lower_ends: &mut [u32],
    upper_ends: &mut [u32],
    watches: &mut [u32],
) -> u32
    ensures answered { Answered result (λ reply. Opened dimensions capacity directions
        (tables columns.old positions.old lower_ends.old upper_ends.old)
        (records_in watches.old) reply
        (tables columns.new positions.new lower_ends.new upper_ends.new)
        (records_in watches.new)
        × (head_in head.new ≡ granted result reply.head (head_in head.old))) }
    ensures only_eight { OnlyEight result watches.old watches.new }
{
    if watches.len() < 16 {
        return short_answer(Head::fresh(dimensions, capacity, directions));
    }
    let mut tables = LentTablesMut {
        columns,
        positions,
        lower_ends,
        upper_ends,
    };
    let made = book_by_value::open(
        dimensions,
        capacity,
        directions,
        &mut tables,
        records_of(watches),
    );
    let number = number_of(made.reply.answer);
    if 0 < number {
        return number;
    }
    store_head(made.reply.head, head);
    store_records(made.records, watches);
    number
}

// Takes a quote: writes the changes of every watch, puts the quote's row into the tables, and hands back the next head
// and how many bytes were written.
#[unsafe(no_mangle)]
pub extern "C" fn bqb_quote(
    head: &mut [u32; 8],
    quote: &[u32],
    columns: &mut [u32],
    positions: &mut [u32],
    lower_ends: &mut [u32],
    upper_ends: &mut [u32],
    watches: &[u32],
    out: &mut [u8],
    count: &mut usize,
) -> u32
    ensures { Answered result (λ reply. Quoted (head_in head.old) quote.now
        (tables columns.old positions.old lower_ends.old upper_ends.old)
        (records_in watches.now) out.old reply
        (tables columns.new positions.new lower_ends.new upper_ends.new)
        out.new × Hands reply head.new × Counts reply count.new) }
{
    let before = head_of(head);
    if watches.len() < 16 {
        *count = 0;
        return short_answer(before);
    }
    let mut tables = LentTablesMut {
        columns,
        positions,
        lower_ends,
        upper_ends,
    };
    let taken = book_by_value::quote(before, quote, &mut tables, records_of(watches), out);
    store_head(taken.head, head);
    *count = taken.count;
    number_of(taken.answer)
}

// Previews a quote: writes the changes that it would bring, and hands back how many bytes, and the live and held rows that it would leave.
#[unsafe(no_mangle)]
pub extern "C" fn bqb_preview(
    head: &[u32; 8],
    quote: &[u32],
    columns: &[u32],
    positions: &[u32],
    lower_ends: &[u32],
    upper_ends: &[u32],
    watches: &[u32],
    out: &mut [u8],
    count: &mut usize,
    live: &mut u32,
    held: &mut u32,
) -> u32
    ensures { Answered result (λ reply. Previewed (head_in head.now) quote.now
        (tables columns.now positions.now lower_ends.now upper_ends.now)
        (records_in watches.now) out.old
        (record { reply = reply; live = live.new; held = held.new }) out.new
        × Counts reply count.new) }
{
    let before = head_of(head);
    if watches.len() < 16 {
        *count = 0;
        *live = before.live;
        *held = before.held;
        return short_answer(before);
    }
    let tables = LentTables {
        columns,
        positions,
        lower_ends,
        upper_ends,
    };
    let effect = book_by_value::preview(before, quote, &tables, records_of(watches), out);
    *count = effect.reply.count;
    *live = effect.live;
    *held = effect.held;
    number_of(effect.reply.answer)
}
