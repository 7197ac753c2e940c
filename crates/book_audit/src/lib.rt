// The audit of a saved book: whether some tape leaves exactly these tables, this newest position and these counts.
#![tactic(auto)]

mod ends;

ghost use Rattle.std.specs.Prelude.{◌≡◌, ◌==◌, ◌*◌, ◌≤◌, length};
ghost use Rattle.std.specs.List.{list_all};
ghost use Rattle.head.specs.Replies.{finding};
ghost use Rattle.lent_tables.specs.Lent.{lent};
ghost use Rattle.model_audit.specs.Audit.{Small, zero_from, passes, Audited};

use call_judging::short_tables;
use ends::HeldRows;
use head::Head;
use lent_tables::LentTables;
use refusals::Refusal;
use table_cells::torn_rows;

// Whether all of these cells are 0. It is without branches, so that cells can be compared side by side.
fn only_zeros(cells: &[u32]) -> bool
    ensures { result ≡ list_all (λ x. x == 0) cells.now }
{
    let mut all = true;
    for cell in cells {
        all &= *cell == 0;
    }
    all
}

// Whether the cells from one place up to another are 0.
fn all_zero(cells: &[u32], from: usize, to: usize) -> bool
    requires from_le_to { from ≤ to }
    requires to_in_bounds { to ≤ length cells.now }
    ensures { result ≡ zero_from from to cells.now }
{
    only_zeros(&cells[from..to])
}

// Whether a head and tables that are not refused meet the rules of the audit.
fn meets_rules(head: Head, tables: &LentTables<'_>) -> bool
    requires le_capacity { 1 ≤ head.capacity }
    requires dimensions_in_bounds { head.capacity * head.dimensions ≤ length tables.now.columns.now }
    requires capacity_in_bounds { head.capacity ≤ length tables.now.positions.now }
    requires capacity_in_bounds_2 { head.capacity ≤ length tables.now.lower_ends.now }
    requires capacity_in_bounds_3 { head.capacity ≤ length tables.now.upper_ends.now }
    ensures { result ≡ passes head (lent tables.now) }
{
    if torn_rows(head, tables) {
        return false;
    }
    let d = head.dimensions as usize;
    let capacity = head.capacity as usize;
    let count = head.held as usize;
    let rows = HeldRows {
        directions: head.directions,
        dimensions: d,
        count,
        columns: tables.columns,
        positions: tables.positions,
    };
    let right = rows.right_ends(tables.lower_ends, tables.upper_ends);
    let clear = all_zero(tables.columns, count * d, capacity * d)
        & all_zero(tables.positions, count, capacity)
        & all_zero(tables.lower_ends, count, capacity)
        & all_zero(tables.upper_ends, count, capacity);
    right & clear
}

// Says for the proof of the audit what the type of these cells says: they have 32 bits. It does nothing.
fn know_small(cells: &[u32])
    ensures { Small cells.now }
{
    let _ = cells;
}

// The audit: refused with 3, then 11, else yes exactly if some tape leaves exactly these tables, this newest position and these counts.
pub fn audit(head: Head, tables: &LentTables<'_>) -> Result<bool, Refusal>
    ensures { Audited head (lent tables.now) (finding result) }
{
    know_small(tables.columns);
    if !head.settings_hold() {
        return Err(Refusal::Settings);
    }
    if short_tables(head, tables) {
        return Err(Refusal::ShortLoan);
    }
    Ok(meets_rules(head, tables))
}
