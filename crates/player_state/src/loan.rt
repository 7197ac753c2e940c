// How much of each buffer is lent.
ghost use Rattle.std.specs.Prelude.{◌≡◌, ◌≤◌, IfNone};

use head::{CHANGE_BYTES, COLUMN_CELLS, PLACES};
use player_lines::Name;

// How many cells of each table are lent, how many bytes of output, or cells to a look and to what is due, and how many cells to the look behind a
// quote in one.
#[derive(Clone, Copy)]
pub struct Loan {
    pub columns: usize,
    pub positions: usize,
    pub lower_ends: usize,
    pub upper_ends: usize,
    pub out: usize,
    pub cells: usize,
    ghost columns_within: { columns ≤ 6144 },
    ghost positions_within: { positions ≤ 1024 },
    ghost lower_ends_within: { lower_ends ≤ 1024 },
    ghost upper_ends_within: { upper_ends ≤ 1024 },
    ghost out_within: { out ≤ 62520 },
    ghost cells_within: { cells ≤ 62520 },
}

impl Loan {
    // Every buffer whole.
    pub fn whole() -> Loan
        ensures tables { (result.columns ≡ 6144) × (result.positions ≡ 1024) × (result.lower_ends ≡ 1024) × (result.upper_ends ≡ 1024) }
        ensures outputs { (result.out ≡ 62520) × (result.cells ≡ 62520) }
    {
        Loan {
            columns: COLUMN_CELLS,
            positions: PLACES,
            lower_ends: PLACES,
            upper_ends: PLACES,
            out: CHANGE_BYTES,
            cells: CHANGE_BYTES,
        }
    }

    // Lends so much of a buffer from now on; none where it is no buffer or is not so long.
    pub fn lend(&mut self, name: Name, count: usize) -> Option<()>
        ensures { IfNone result (self.new ≡ self.old) }
    {
        match name {
            Name::Columns if count <= COLUMN_CELLS => self.columns = count,
            Name::Positions if count <= PLACES => self.positions = count,
            Name::LowerEnds if count <= PLACES => self.lower_ends = count,
            Name::UpperEnds if count <= PLACES => self.upper_ends = count,
            Name::Out if count <= CHANGE_BYTES => self.out = count,
            Name::Cells if count <= CHANGE_BYTES => self.cells = count,
            _ => return None,
        }
        Some(())
    }
}
