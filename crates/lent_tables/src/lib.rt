#![tactic(auto)]

// The four tables of a book, as a caller lends them: to read, or to write.
ghost use Rattle.std.specs.Prelude.{◌≡◌};
ghost use Rattle.lent_tables.specs.Lent.{lent, lent_mut};

// The four tables, lent to read: of each row its columns, its position, and its lower and its upper end (01: the tables).
#[derive(Clone, Copy)]
pub struct LentTables<'a> {
    pub columns: &'a [u32],
    pub positions: &'a [u32],
    pub lower_ends: &'a [u32],
    pub upper_ends: &'a [u32],
}

// The four tables, lent to write.
#[derive(Drop)]
pub struct LentTablesMut<'a> {
    pub columns: &'a mut [u32],
    pub positions: &'a mut [u32],
    pub lower_ends: &'a mut [u32],
    pub upper_ends: &'a mut [u32],
}

impl LentTablesMut<'_> {
    // The same tables, to read.
    pub fn to_read(&self) -> LentTables<'_>
        ensures { lent result ≡ lent_mut self.now }
    {
        LentTables {
            columns: &*self.columns,
            positions: &*self.positions,
            lower_ends: &*self.lower_ends,
            upper_ends: &*self.upper_ends,
        }
    }
}
