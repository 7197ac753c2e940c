// A window of rows by their ends, where the rows' positions follow one another: its places, and the tests of a row.
ghost use Rattle.table_listing.specs.Picked.{Window};

// The rows at the positions from start to end, which may be none, among rows of which the first has position first.
// Its rows are written by three loops of one shape (`write_due`, `write_listed`, `write_joins`) and not by one that is given a closure: of
// what a closure writes through what it captures a proof learns nothing.
#[derive(Clone, Copy)]
pub struct RowWindow<'a> {
    pub first: u32,
    pub start: u32,
    pub end: u32,
    pub lower_ends: &'a [u32],
    pub upper_ends: &'a [u32],
    pub ghost within: { Window first start end lower_ends.now upper_ends.now },
}

impl RowWindow<'_> {
    ghost use Rattle.std.specs.Prelude.{◌≡◌, ◌+◌, ◌-◌, ◌&&◌, ◌||◌, ltb, eqb};

    // The place of the window's first row.
    pub(crate) fn first_place(&self) -> usize
        ensures { result ≡ self.now.start - self.now.first }
    {
        (self.start - self.first) as usize
    }

    // The place behind the window's last row.
    pub(crate) fn places_end(&self) -> usize
        ensures { result ≡ self.now.end + 1 - self.now.first }
    {
        (self.end as usize) + 1 - (self.first as usize)
    }

    // Whether a row of the window is on its list, by its ends.
    pub(crate) fn lists(&self, lower: u32, upper: u32) -> bool
        ensures { result ≡ (ltb lower self.now.start && (eqb upper 0 || ltb self.now.end upper)) }
    {
        (lower < self.start) & ((upper == 0) | (self.end < upper))
    }
}
