// Cells of one lent table: rows moved to the front, one row more put behind them, zeros up to a place, and cells stored at listed places;
// and the test of torn rows.
#![tactic(auto)]

mod rows;

ghost use Rattle.std.specs.Prelude.{◌≡◌, ◌+◌, ◌-◌, ◌≤◌, ◌++◌, map, length, take, drop};
ghost use Rattle.std.proofs.Math.Seq.{paste};
ghost use Rattle.lists.specs.Lists.{padded};
ghost use Rattle.model.specs.Rows.{renamed};
ghost use Rattle.table_cells.specs.Marked.{marked, Below};

pub use choices::chosen;
pub use rows::torn_rows;

// Zeros the cells from one place up to another.
pub fn clear(cells: &mut [u32], from: usize, to: usize)
    requires from_le_to { from ≤ to }
    requires to_in_bounds { to ≤ length cells.old }
    ensures { cells.new ≡ padded to (take from cells.old) cells.old }
{
    cells[from..to].fill(0);
}

// Puts a row at a place.
pub fn put(cells: &mut [u32], at: usize, row: &[u32])
    requires { at + length row.now ≤ length cells.old }
    ensures { cells.new ≡ paste cells.old at row.now
        (length row.now) }
{
    let end = at + row.len();
    cells[at..end].copy_from_slice(row);
}

// The most cells of a piece that is moved at once: 2 KB.
const PIECE: usize = 512;

// Copies n cells from one place to another, by way of a copy: the two may overlap.
fn move_cells(cells: &mut [u32], from: usize, to: usize, n: usize)
    requires n_in_bounds { from + n ≤ length cells.old }
    requires n_in_bounds_2 { to + n ≤ length cells.old }
    requires n_bound { n ≤ 512 }
    ensures { cells.new ≡ paste cells.old to (drop from cells.old) n }
{
    let mut held = [0; PIECE];
    let end = from + n;
    put(&mut held, 0, &cells[from..end]);
    put(cells, to, &held[..n]);
}

// Moves the first count cells to the front by so many, which are lost, in pieces by way of a copy: `copy_within` is compiled to a loop that
// takes 1.9 times the instructions (2,730 for 3,072 cells, where this takes 1,427), and the public quote on duplicates would miss its goal.
pub fn shift(cells: &mut [u32], by: usize, count: usize)
    requires by_le_count { by ≤ count }
    requires count_in_bounds { count ≤ length cells.old }
    ensures { cells.new ≡ paste cells.old 0 (drop by cells.old) (count - by) }
{
    if by == 0 {
        return;
    }
    let kept = count - by;
    let mut at = 0;
    while at < kept {
        let n = PIECE.min(kept - at);
        move_cells(cells, at + by, at, n);
        at += n;
    }
}

// Takes one row more into a table: of the first count cells so many at the front are lost, the others move there, the row is put behind
// them, and the cells from there up to a place become zeros.
pub fn enter(cells: &mut [u32], by: usize, count: usize, row: &[u32], places: usize)
    requires by_le_count { by ≤ count }
    requires count_le_places { count ≤ places }
    requires row_bound { count - by + length row.now ≤ places }
    requires places_in_bounds { places ≤ length cells.old }
    ensures { cells.new ≡ padded places
        (take (count - by) (drop by cells.old) ++ row.now) cells.old }
{
    shift(cells, by, count);
    let at = count - by;
    put(cells, at, row);
    clear(cells, at + row.len(), places);
}

// Zeros those of the first count cells that name the expired position gone; none does where nothing expired.
pub fn rename(cells: &mut [u32], gone: u32, count: usize)
    requires { count ≤ length cells.old }
    ensures { cells.new ≡ map (renamed gone) (take count cells.old) ++ drop count
        cells.old }
{
    if gone == 0 {
        return;
    }
    for cell in &mut cells[..count] {
        *cell = chosen(*cell == gone, 0, *cell);
    }
}

// Stores a number at each of these places.
pub fn store_at(cells: &mut [u32], places: &[u16], x: u32)
    requires { Below places.now (length cells.old) }
    ensures { cells.new ≡ marked places.now x cells.old }
{
    for place in places {
        cells[*place as usize] = x;
    }
}
