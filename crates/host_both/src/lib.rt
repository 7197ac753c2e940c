// The quote and look in one, for a C host.
#![tactic(auto)]

ghost use Rattle.model.specs.Promises.{tables, QuotedLooked};
ghost use Rattle.host_cells.specs.Cells.{head_in, records_in, Answered, Hands, Counts};

use host_cells::{head_of, number_of, records_of, store_head};
use host_loans::short_answer;
use lent_tables::LentTablesMut;

// Takes a quote and, on the book after it, writes the positions of the list of n into cells: both, or neither where either is refused. Hands
// back the next head, how many bytes were written, and how many positions.
#[unsafe(no_mangle)]
pub extern "C" fn bqb_quote_look(
    head: &mut [u32; 8],
    quote: &[u32],
    n: u32,
    columns: &mut [u32],
    positions: &mut [u32],
    lower_ends: &mut [u32],
    upper_ends: &mut [u32],
    watches: &[u32],
    out: &mut [u8],
    count: &mut usize,
    cells: &mut [u32],
    listed: &mut usize,
) -> u32
    ensures { Answered result (λ reply. QuotedLooked (head_in head.old) quote.now n
        (tables columns.old positions.old lower_ends.old upper_ends.old)
        (records_in watches.now) out.old cells.old
        (record { reply = reply; listed = listed.new })
        (tables columns.new positions.new lower_ends.new upper_ends.new)
        out.new cells.new × Hands reply head.new × Counts reply count.new) }
{
    let before = head_of(head);
    if watches.len() < 16 {
        *count = 0;
        *listed = 0;
        return short_answer(before);
    }
    let mut tables = LentTablesMut {
        columns,
        positions,
        lower_ends,
        upper_ends,
    };
    let made = book_by_value::both(
        before,
        quote,
        n,
        &mut tables,
        records_of(watches),
        out,
        cells,
    );
    store_head(made.reply.head, head);
    *count = made.reply.count;
    *listed = made.listed;
    number_of(made.reply.answer)
}
