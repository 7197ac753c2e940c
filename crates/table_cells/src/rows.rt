// The test of torn rows, on the tables of positions and of both ends.
ghost use Rattle.std.specs.Prelude.{◌≡◌, ◌+◌, ◌≤◌, min, ◌&&◌, eqb, length};
ghost use Rattle.lent_tables.specs.Lent.{lent};
ghost use Rattle.model.specs.Rows.{rows_in, live_rows};
ghost use Rattle.model.specs.Book.{torn_rows, book_rows};
ghost use Rattle.table_cells.specs.Places.{torn_head, in_places};

use head::Head;
use lent_tables::LentTables;

// Whether no rows could stand under this head.
#[tactic(auto, unfolding(crate::specs::Places::torn_head))]
fn torn_head(head: Head) -> bool
    ensures { result ≡ torn_head head }
{
    (Head::MAX_POSITION < head.newest) | (head.held != head.newest.min(head.capacity))
}

// Whether the rows held stand at the positions from a first one on, with both ends in their places, and as many are live as the head
// says. It is without branches, so that rows can be judged side by side.
fn in_places(head: Head, first: u32, tables: &LentTables<'_>) -> bool
    requires held_bound { first + head.held ≤ 16777216 }
    requires held_in_bounds { head.held ≤ length tables.now.positions.now }
    requires held_in_bounds_2 { head.held ≤ length tables.now.lower_ends.now }
    requires held_in_bounds_3 { head.held ≤ length tables.now.upper_ends.now }
    ensures { result ≡ in_places head.newest first (rows_in 0 head.held (lent tables.now))
        && eqb head.live (length (live_rows (rows_in 0 head.held (lent tables.now)))) }
{
    let positions = tables.positions;
    let lower_ends = tables.lower_ends;
    let upper_ends = tables.upper_ends;
    let mut placed = true;
    let mut live: u32 = 0;
    let mut position = first;
    for i in 0..head.held as usize {
        let stands = positions[i];
        let lower = lower_ends[i];
        let upper = upper_ends[i];
        let open = upper == 0;
        let behind = (stands < upper) & (upper <= head.newest);
        placed = placed & (stands == position) & (lower < stands) & (open | behind);
        live += u32::from(open);
        position += 1;
    }
    placed & (head.live == live)
}

// Whether the rows of a book, or its head, could not be (01: torn).
pub fn torn_rows(head: Head, tables: &LentTables<'_>) -> bool
    requires le_capacity { 1 ≤ head.capacity }
    requires capacity_in_bounds { head.capacity ≤ length tables.now.positions.now }
    requires capacity_in_bounds_2 { head.capacity ≤ length tables.now.lower_ends.now }
    requires capacity_in_bounds_3 { head.capacity ≤ length tables.now.upper_ends.now }
    ensures { result ≡ torn_rows head (book_rows head (lent tables.now)) }
{
    if torn_head(head) {
        return true;
    }
    let first = head.window_start(head.capacity) as u32;
    !in_places(head, first, tables)
}
