// The rows held of a book that is audited, and the ends that each of them is to have.
ghost use Rattle.std.specs.Prelude.{◌*◌, ◌≤◌, length};

use dominance::{Comparison, compare};

// So many rows: how their columns are compared, how many columns each has, and their columns and positions.
#[derive(Clone, Copy)]
pub(crate) struct HeldRows<'a> {
    pub directions: u32,
    pub dimensions: usize,
    pub count: usize,
    pub columns: &'a [u32],
    pub positions: &'a [u32],
    pub ghost columns_fit: { count * dimensions ≤ length columns.now },
    pub ghost positions_fit: { count ≤ length positions.now },
}

impl HeldRows<'_> {
    ghost use Rattle.std.specs.Prelude.{◌≡◌, ◌<◌, ◌&&◌, not, []};
    ghost use Rattle.lists.specs.Lists.{any, run};
    ghost use Rattle.model.specs.Promises.{tables};
    ghost use Rattle.book_audit.specs.Ends.{over_younger_at, over_older_at, lower_found, upper_found, wrong_at};

    // How a younger row stands to an older one, each given by its place.
    fn compared(&self, younger: usize, older: usize) -> Comparison
        requires younger_held { younger < self.now.count }
        requires older_held { older < self.now.count }
        ensures under { (result.worse && not result.better)
            ≡ over_younger_at self.now.dimensions self.now.directions (tables self.now.columns.now [] [] []) younger older }
        ensures over { not result.worse
            ≡ over_older_at self.now.dimensions self.now.directions (tables self.now.columns.now [] [] []) older younger }
    {
        let d = self.dimensions;
        let from = younger * d;
        let to = from + d;
        compare(
            self.directions,
            d,
            &self.columns[from..to],
            self.columns,
            older * d,
        )
    }

    // The lower end of the row at place i: the position of the youngest row before it that is over it, or 0.
    fn lower_end(&self, i: usize) -> u32
        requires { i < self.now.count }
        ensures { result ≡ lower_found self.now.dimensions self.now.directions
            (tables self.now.columns.now self.now.positions.now [] []) i }
    {
        for j in (0..i).rev() {
            if self.compared(i, j).under_older() {
                return self.positions[j];
            }
        }
        0
    }

    // The upper end of the row at place i: the position of the oldest row behind it that is over it, or 0.
    fn upper_end(&self, i: usize) -> u32
        requires { i < self.now.count }
        ensures { result ≡ upper_found self.now.dimensions self.now.directions
            (tables self.now.columns.now self.now.positions.now [] []) self.now.count i }
    {
        for j in i + 1..self.count {
            if self.compared(j, i).over_older() {
                return self.positions[j];
            }
        }
        0
    }

    // Whether both ends of each of the rows are the ones found.
    pub(crate) fn right_ends(&self, lower_ends: &[u32], upper_ends: &[u32]) -> bool
        requires count_in_bounds { self.now.count ≤ length lower_ends.now }
        requires count_in_bounds_2 { self.now.count ≤ length upper_ends.now }
        ensures { result ≡ not (any (wrong_at self.now.dimensions self.now.directions
            (tables self.now.columns.now self.now.positions.now lower_ends.now upper_ends.now)
            self.now.count) (run 0 self.now.count)) }
    {
        let mut wrong = false;
        for i in 0..self.count {
            let lower_found = self.lower_end(i);
            let upper_found = self.upper_end(i);
            wrong = wrong | (lower_ends[i] != lower_found) | (upper_ends[i] != upper_found);
        }
        !wrong
    }
}
