// The calls for a C host on the watches: a desk's watch and its end, the pair and its end.
#![tactic(auto)]

ghost use Rattle.std.specs.Prelude.{◌≡◌};
ghost use Rattle.model.specs.Promises.{tables, Watched, Ended, Paired, Unpaired};
ghost use Rattle.host_cells.specs.Cells.{head_in, desk_of, records_in, Answered, Hands, Counts, OnlyEight};

use host_cells::{desk_of, head_of, number_of, records_of, store_head, store_records};
use host_loans::short_answer;
use lent_tables::LentTables;

// Sets a desk's watch of n and writes a join for each position of its list; hands back how many bytes.
#[unsafe(no_mangle)]
pub extern "C" fn bqb_set_watch(
    head: &[u32; 8],
    desk: u32,
    n: u32,
    columns: &[u32],
    positions: &[u32],
    lower_ends: &[u32],
    upper_ends: &[u32],
    watches: &mut [u32],
    out: &mut [u8],
    count: &mut usize,
) -> u32
    ensures answered { Answered result (λ reply. Watched (head_in head.now) (desk_of desk) n
        (tables columns.now positions.now lower_ends.now upper_ends.now)
        (records_in watches.old) out.old reply (records_in watches.new) out.new
        × Counts reply count.new) }
    ensures only_eight { OnlyEight result watches.old watches.new }
{
    let before = head_of(head);
    if watches.len() < 16 {
        *count = 0;
        return short_answer(before);
    }
    let tables = LentTables {
        columns,
        positions,
        lower_ends,
        upper_ends,
    };
    let made = book_by_value::watch(before, desk_of(desk), n, &tables, records_of(watches), out);
    *count = made.reply.count;
    let number = number_of(made.reply.answer);
    if 0 < number {
        return number;
    }
    store_records(made.records, watches);
    number
}

// Ends a desk's watch of n.
#[unsafe(no_mangle)]
pub extern "C" fn bqb_end_watch(
    head: &[u32; 8],
    desk: u32,
    n: u32,
    columns: &[u32],
    positions: &[u32],
    lower_ends: &[u32],
    upper_ends: &[u32],
    watches: &mut [u32],
) -> u32
    ensures answered { Answered result (λ reply. Ended (head_in head.now) (desk_of desk) n
        (tables columns.now positions.now lower_ends.now upper_ends.now)
        (records_in watches.old) reply (records_in watches.new)) }
    ensures only_eight { OnlyEight result watches.old watches.new }
{
    let before = head_of(head);
    if watches.len() < 16 {
        return short_answer(before);
    }
    let tables = LentTables {
        columns,
        positions,
        lower_ends,
        upper_ends,
    };
    let made = book_by_value::end(before, desk_of(desk), n, &tables, records_of(watches));
    let refusal = number_of(made.reply.answer);
    if 0 < refusal {
        return refusal;
    }
    store_records(made.records, watches);
    refusal
}

// Sets the watch of the pair n1 and n2 and writes a join for each position of its past list; hands back the head with the pair and how many bytes.
#[unsafe(no_mangle)]
pub extern "C" fn bqb_set_pair(
    head: &mut [u32; 8],
    n1: u32,
    n2: u32,
    columns: &[u32],
    positions: &[u32],
    lower_ends: &[u32],
    upper_ends: &[u32],
    watches: &[u32],
    out: &mut [u8],
    count: &mut usize,
) -> u32
    ensures { Answered result (λ reply. Paired (head_in head.old) n1 n2
        (tables columns.now positions.now lower_ends.now upper_ends.now)
        (records_in watches.now) out.old reply out.new
        × Hands reply head.new × Counts reply count.new) }
{
    let before = head_of(head);
    if watches.len() < 16 {
        *count = 0;
        return short_answer(before);
    }
    let tables = LentTables {
        columns,
        positions,
        lower_ends,
        upper_ends,
    };
    let reply = book_by_value::pair(before, n1, n2, &tables, records_of(watches), out);
    store_head(reply.head, head);
    *count = reply.count;
    number_of(reply.answer)
}

// Ends the watch of the pair.
#[unsafe(no_mangle)]
pub extern "C" fn bqb_end_pair(
    head: &mut [u32; 8],
    columns: &[u32],
    positions: &[u32],
    lower_ends: &[u32],
    upper_ends: &[u32],
    watches: &[u32],
) -> u32
    ensures { Answered result (λ reply. Unpaired (head_in head.old)
        (tables columns.now positions.now lower_ends.now upper_ends.now)
        (records_in watches.now) reply × Hands reply head.new) }
{
    let before = head_of(head);
    if watches.len() < 16 {
        return short_answer(before);
    }
    let tables = LentTables {
        columns,
        positions,
        lower_ends,
        upper_ends,
    };
    let left = book_by_value::unpair(before, &tables, records_of(watches));
    store_head(left.head, head);
    number_of(left.answer)
}
