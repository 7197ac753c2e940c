// Where the rows of a book start in tables of twice the places that it needs: slid by a place, and moved to the front when the places are
// used up.
#![tactic(auto)]

ghost use Rattle.std.specs.Prelude.{◌≡◌, ◌+◌, ◌*◌, ◌≤◌};
ghost use Rattle.head.specs.Heads.{max_capacity};
ghost use Rattle.lent_tables.specs.Lent.{lent_mut, SameLoan};
ghost use Rattle.table_starts.specs.Starts.{Long, Within, FullOpened, onward, Moved};

use head::{COLUMN_CELLS, Head, PLACES};
use lent_tables::LentTablesMut;
use table_cells::shift;

// Places of the tables that the rows slide through.
pub const SLIDING_PLACES: usize = 2 * PLACES;

// Cells of their columns.
pub const SLIDING_CELLS: usize = 2 * COLUMN_CELLS;

// Where the rows of the book start: at which place of the tables, and at which cell of the columns.
#[derive(Clone, Copy)]
pub struct Start {
    pub row: usize,
    pub cell: usize,
}

// Where the rows start once they slid by none or one place.
pub fn slid(start: Start, by: usize, head: Head) -> Start
    requires { Within 1023 start × (by ≤ 1) }
    ensures { result ≡ record { row = start.row + by; cell = start.cell + by * head.dimensions } }
{
    let d = head.dimensions as usize;
    Start {
        row: start.row + by,
        cell: start.cell + by * d,
    }
}

// Moves the rows to the front of the tables where they may find no place behind them for one row more.
pub fn rewind(start: Start, head: Head, tables: &mut LentTablesMut<'_>) -> Start
    requires long { Long (lent_mut tables.old) }
    requires within { Within max_capacity start × FullOpened start head }
    ensures within_2 { Within 1023 result }
    ensures moved { Moved head (onward start (lent_mut tables.old)) (onward result (lent_mut tables.new)) }
    ensures same_loan { SameLoan tables.old tables.new }
{
    let row = start.row;
    if row < PLACES {
        return start;
    }
    let cell = start.cell;
    let n = head.capacity as usize;
    let d = head.dimensions as usize;
    shift(tables.columns, cell, cell + n * d);
    shift(tables.positions, row, row + n);
    shift(tables.lower_ends, row, row + n);
    shift(tables.upper_ends, row, row + n);
    Start { row: 0, cell: 0 }
}
