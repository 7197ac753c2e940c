// Cells of a value sought in a table, by blocks.
ghost use Rattle.std.specs.Prelude.{◌≡◌, ◌==◌, ◌≤◌, ◌<◌, length, position};
ghost use Rattle.std.specs.List.{list_any};
ghost use Rattle.table_changes.specs.Sought.{Unequal, Found};

// Whether one of these cells is x. It is without branches, so that cells can be compared side by side.
fn any_equal(cells: &[u32], x: u32) -> bool
    ensures { result ≡ list_any (λ cell. cell == x) cells.now }
{
    let mut found = false;
    for cell in cells {
        found |= *cell == x;
    }
    found
}

// Skips blocks of this many cells, from a place on and below another, that are not x. The loop counts the place since a block's start is
// what is handed back.
fn skip_unequal(cells: &[u32], from: usize, to: usize, size: usize, x: u32) -> usize
    requires from_le_to { from ≤ to }
    requires to_in_bounds { to ≤ length cells.now }
    requires size_nonzero { 0 < size }
    ensures { Unequal cells.now x from to result }
{
    let mut i = from;
    while size <= to - i {
        if any_equal(&cells[i..i + size], x) {
            return i;
        }
        i += size;
    }
    i
}

// The first place of these cells where one is x.
fn first_equal(cells: &[u32], x: u32) -> Option<usize>
    ensures { result ≡ position (λ cell. cell == x) cells.now }
{
    cells.iter().position(|cell| *cell == x)
}

// The first place from a place on and below another whose cell is x.
pub fn next_equal(cells: &[u32], from: usize, to: usize, x: u32) -> Option<usize>
    requires from_le_to { from ≤ to }
    requires to_in_bounds { to ≤ length cells.now }
    ensures { Found cells.now x from to result }
{
    let far = skip_unequal(cells, from, to, 64, x);
    let near = skip_unequal(cells, far, to, 16, x);
    let place = first_equal(&cells[near..to], x)?;
    Some(near + place)
}
