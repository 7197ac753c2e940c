// The calls for a C host that are lent no records: look, past look, what is due, and the audit.
#![tactic(auto)]

ghost use Rattle.std.specs.Prelude.{◌≡◌};
ghost use Rattle.model_audit.specs.Audit.{audit_finding};
ghost use Rattle.head.specs.Replies.{finding};
ghost use Rattle.model.specs.Promises.{tables, Looked, PastLooked, DueLooked};
ghost use Rattle.host_cells.specs.Cells.{head_in, Answered, Counts};
ghost use Rattle.host_looks.specs.Verdicts.{finding_number, finding_verdict};

use book_audit::audit;
use call_looking::{due, look, past};
use host_cells::{head_of, number_of};
use lent_tables::LentTables;
use refusals::Refusal;

// Writes the positions of the list of n into lent cells, and hands back how many.
#[unsafe(no_mangle)]
pub extern "C" fn bqb_look(
    head: &[u32; 8],
    n: u32,
    columns: &[u32],
    positions: &[u32],
    lower_ends: &[u32],
    upper_ends: &[u32],
    cells: &mut [u32],
    count: &mut usize,
) -> u32
    ensures { Answered result (λ reply. Looked (head_in head.now) n
        (tables columns.now positions.now lower_ends.now upper_ends.now)
        cells.old reply cells.new × Counts reply count.new) }
{
    let tables = LentTables {
        columns,
        positions,
        lower_ends,
        upper_ends,
    };
    let listed = look(head_of(head), n, &tables, cells);
    *count = listed.count;
    number_of(listed.answer)
}

// Writes the positions of the past list of n1 and n2 into lent cells, and hands back how many.
#[unsafe(no_mangle)]
pub extern "C" fn bqb_past(
    head: &[u32; 8],
    n1: u32,
    n2: u32,
    columns: &[u32],
    positions: &[u32],
    lower_ends: &[u32],
    upper_ends: &[u32],
    cells: &mut [u32],
    count: &mut usize,
) -> u32
    ensures { Answered result (λ reply. PastLooked (head_in head.now) n1 n2
        (tables columns.now positions.now lower_ends.now upper_ends.now)
        cells.old reply cells.new × Counts reply count.new) }
{
    let tables = LentTables {
        columns,
        positions,
        lower_ends,
        upper_ends,
    };
    let past_list = past(head_of(head), n1, n2, &tables, cells);
    *count = past_list.count;
    number_of(past_list.answer)
}

// Writes of each row that is due its position and after how many more quotes it joins, two cells a row, and hands back how many rows.
#[unsafe(no_mangle)]
pub extern "C" fn bqb_due(
    head: &[u32; 8],
    columns: &[u32],
    positions: &[u32],
    lower_ends: &[u32],
    upper_ends: &[u32],
    cells: &mut [u32],
    count: &mut usize,
) -> u32
    ensures { Answered result (λ reply. DueLooked (head_in head.now)
        (tables columns.now positions.now lower_ends.now upper_ends.now)
        cells.old reply cells.new × Counts reply count.new) }
{
    let tables = LentTables {
        columns,
        positions,
        lower_ends,
        upper_ends,
    };
    let rows = due(head_of(head), &tables, cells);
    *count = rows.count;
    number_of(rows.answer)
}

// The audit of a saved book: the verdict is 1 exactly if some tape leaves it, and 0 where it is refused.
#[unsafe(no_mangle)]
pub extern "C" fn bqb_audit(
    head: &[u32; 8],
    columns: &[u32],
    positions: &[u32],
    lower_ends: &[u32],
    upper_ends: &[u32],
    passes: &mut u32,
) -> u32
    ensures value { result ≡ finding_number (audit_finding (head_in head.now)
        (tables columns.now positions.now lower_ends.now
        upper_ends.now)) }
    ensures passes_after { passes.new ≡ finding_verdict (audit_finding (head_in head.now)
        (tables columns.now positions.now lower_ends.now
        upper_ends.now)) }
{
    let tables = LentTables {
        columns,
        positions,
        lower_ends,
        upper_ends,
    };
    let verdict = audit(head_of(head), &tables);
    *passes = verdict_of(verdict);
    refusal_of(verdict)
}

// 1 for yes; 0 for no, and where the audit is refused.
fn verdict_of(verdict: Result<bool, Refusal>) -> u32
    ensures { result ≡ finding_verdict (finding verdict) }
{
    match verdict {
        Ok(true) => 1,
        Ok(false) | Err(_) => 0,
    }
}

// 0 for a verdict, else the number of the refusal.
fn refusal_of(verdict: Result<bool, Refusal>) -> u32
    ensures { result ≡ finding_number (finding verdict) }
{
    match verdict {
        Ok(_) => 0,
        Err(refusal) => refusal.number(),
    }
}
