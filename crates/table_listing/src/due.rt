// The rows of a window that are due by their lower ends: counted, and written as two cells each.
use crate::RowWindow;

impl RowWindow<'_> {
    ghost use Rattle.std.specs.Prelude.{◌≡◌, ◌+◌, ◌*◌, ◌≤◌, map, length};
    ghost use Rattle.lists.specs.Lists.{flat, laid};
    ghost use Rattle.table_listing.specs.Due.{due_of};
    ghost use Rattle.table_listing.specs.Listed.{due_on};

    // How many rows of the window have a lower end below c.
    pub fn count_due(&self, c: u32) -> usize
        ensures { result ≡ length (due_on self.now c) }
    {
        let mut n: u32 = 0;
        for i in self.first_place()..self.places_end() {
            n += u32::from(self.lower_ends[i] < c);
        }
        n as usize
    }

    // Writes of each such row, the window ending at the newest position, its position and after how many more quotes it joins the past
    // list of n1.
    pub fn write_due(&self, c: u32, n1: u32, out: &mut [u32])
        requires end_bound { self.now.end + 1 ≤ self.now.start + n1 }
        requires n1_bound { self.now.end + n1 ≤ 4294967295 }
        requires out_in_bounds { 2 * length (due_on self.now c) ≤ length out.old }
        ensures { out.new ≡ laid (flat (map (due_of self.now.end n1) (due_on self.now c))) out.old }
    {
        let window = *self;
        let mut at: usize = 0;
        for i in window.first_place()..window.places_end() {
            if window.lower_ends[i] >= c {
                continue;
            }
            let position = window.first + (i as u32);
            out[at] = position;
            out[at + 1] = position + n1 - (window.end + 1);
            at += 2;
        }
    }
}
