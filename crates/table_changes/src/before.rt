// A quote with the rows held before it, and what is known of them.
ghost use Rattle.std.specs.Prelude.{◌≡◌, ◌<◌, true};
ghost use Rattle.skyline.specs.Skyline.{window_start};
ghost use Rattle.table_finding.specs.Found.{rows};
ghost use Rattle.table_changes.specs.Held.{LiveNamed};
ghost use Rattle.table_changes.specs.Watches.{held_in, outdone, Full};

use head::Head;
use lent_tables::LentTables;

// A quote and the rows held before it: the head, the tables, the position of the first row, the quote's columns, the places of the rows
// that it retires, the lower end of its row, and whether lower ends of live rows are known to name live rows. An end of 0 stands for none, as
// in the tables of the C interface.
#[derive(Clone, Copy)]
pub struct Before<'a> {
    pub head: Head,
    pub tables: LentTables<'a>,
    pub first: u32,
    pub quote: &'a [u32],
    pub retired: &'a [u16],
    pub lower: u32,
    pub sound: bool,
    pub ghost bounded: { head.capacity < 65536 },
    pub ghost first_value: { first ≡ window_start head.newest head.capacity },
    pub ghost full: { Full head tables.lower_ends.now (rows head.dimensions head.directions tables.columns.now tables.upper_ends.now quote.now) },
    pub ghost listed: { retired.now ≡ outdone head (rows head.dimensions head.directions tables.columns.now tables.upper_ends.now quote.now) },
    pub ghost named: { sound ≡ true → LiveNamed (held_in head tables.lower_ends.now (rows head.dimensions head.directions tables.columns.now tables.upper_ends.now quote.now)) },
}
