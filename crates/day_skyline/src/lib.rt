// The day sheet (02, 10/13): the unbeaten quotes of a whole day, found by halves.
#![tactic(auto)]

mod day;

ghost use Rattle.std.specs.Prelude.{◌≡◌, length, take, ◌+◌, ◌≤◌, ◌<◌};
ghost use Rattle.std.specs.List.{All};
ghost use Rattle.skyline.specs.Halves.{dominated_by};
ghost use Rattle.refusals.specs.Refusals.{number_of};
ghost use Rattle.day_skyline.specs.Sheet.{sheet_of, Sheeted};
ghost use Rattle.day_skyline.specs.Finding.{loan_answer, Written, start_of, over_in, Inside, cut, Apart, Thinned, Halved, merged, AtFront, Part, sheet_from};

pub use day::{Day, LONGEST_DAY};
use dominance::compare_unrolled;
use head::Head;
use refusals::Refusal;

impl Day<'_> {
    // The place in the table of the first column of the quote at position p.
    #[tactic(auto, using(crate::proofs::Over::columns_in), unfolding(crate::specs::Finding::start_of))]
    fn start_of(self, p: u32) -> usize
        requires { Inside self.count p }
        ensures place { result ≡ start_of self.entry p }
        ensures within { result + self.entry.dimensions ≤ length self.entry.columns.now }
    {
        (p as usize - 1) * self.dimensions
    }

    // Whether the quote at position q is over that at position p: it is nowhere worse, and better somewhere or the later one.
    #[tactic(auto, using(crate::proofs::Over::part_all, crate::proofs::Over::over_by), unfolding(crate::specs::Finding::start_of))]
    fn is_over(self, q: u32, p: u32) -> bool
        requires inside { Inside self.count q }
        requires inside_2 { Inside self.count p }
        ensures { result ≡ over_in self.entry q p }
    {
        let quote = &self.columns[self.start_of(p)..];
        let start = self.start_of(q);
        let found = compare_unrolled(self.directions, self.dimensions, quote, self.columns, start);
        !found.better & (found.worse | (p < q))
    }

    // Whether one of the others is over position p.
    fn is_beaten(self, p: u32, others: &[u32]) -> bool
        requires inside { Inside self.count p }
        requires others_inside { All (Inside self.count) others.now }
        ensures { result ≡ dominated_by (over_in self.entry) others.now p }
    {
        others.iter().any(|q| self.is_over(*q, p))
    }

    // Lays those of the positions from place from up to place to over which none of those from low up to high is from place at on.
    // Returns the place behind the last.
    fn thin(
        self,
        cells: &mut [u32],
        from: usize,
        to: usize,
        low: usize,
        high: usize,
        at: usize,
    ) -> usize
        requires { Apart self.count cells.old from to low high at }
        ensures { Thinned (over_in self.entry) cells.old from to low high at result cells.new }
    {
        let mut end = at;
        for i in from..to {
            let p = cells[i];
            if !self.is_beaten(p, &cells[low..high]) {
                cells[end] = p;
                end += 1;
            }
        }
        end
    }

    // Puts the sheets of two halves together: the older is thinned by the newer, and the newer by what is left of the older.
    fn merge(self, cells: &mut [u32], h: usize, older: usize, newer: usize) -> usize
        requires { Halved self.count cells.old h older newer }
        ensures { AtFront (merged (over_in self.entry) (take older cells.old) (cut h (h + newer) cells.old)) result cells.new }
    {
        let kept = self.thin(cells, 0, older, h, h + newer, 0);
        self.thin(cells, h, h + newer, 0, kept, kept)
    }

    // The sheet of one position, or of none.
    fn alone(self, first: usize, cells: &mut [u32]) -> usize
        requires part { Part self.count first (length cells.old) }
        requires cells_len_bound { length cells.old < 2 }
        ensures { AtFront (sheet_from (over_in self.entry) first (length cells.old)) result cells.new }
    {
        if cells.len() == 0 {
            return 0;
        }
        cells[0] = first as u32;
        1
    }

    // Finds the sheet of as many positions as there are cells, from first on, and lays it to the front of the cells. Returns how many.
    fn find(self, first: usize, cells: &mut [u32]) -> usize
        requires { Part self.count first (length cells.old) }
        ensures { AtFront (sheet_from (over_in self.entry) first (length cells.old)) result cells.new }
    {
        let n = cells.len();
        if n < 2 {
            return self.alone(first, cells);
        }
        let h = n / 2;
        let older = self.find(first, &mut cells[..h]);
        let newer = self.find(first + h, &mut cells[h..]);
        self.merge(cells, h, older, newer)
    }

    // Finds the day's sheet in the cells, and writes its positions to the front of out, if there is room.
    fn sheet_in(self, cells: &mut [u32], out: &mut [u32]) -> Result<usize, Refusal>
        requires { self.count ≤ length cells.old }
        ensures { Written (sheet_of self.entry.dimensions self.entry.directions self.entry.count self.entry.columns.now) out.old result out.new }
    {
        let count = self.count;
        let kept = self.find(1, &mut cells[..count]);
        lay(&cells[..kept], out)
    }
}

// The answer of a sheet but for the room: 3, 17, 11.
#[tactic(auto, using(crate::proofs::Answering::settled, crate::proofs::Answering::cells_small), unfolding(crate::specs::Finding::loan_answer, refusals::specs::Refusals::first_of))]
fn judge(d: u32, directions: u32, count: u32, cells: usize) -> Result<(), Refusal>
    ensures { number_of result ≡ loan_answer d directions count cells }
{
    if !Head::fresh(d, 1, directions).settings_hold() {
        return Err(Refusal::Settings);
    }
    if LONGEST_DAY < count {
        return Err(Refusal::DayLength);
    }
    if cells < (d as usize) * (count as usize) {
        return Err(Refusal::ShortLoan);
    }
    Ok(())
}

// Writes the positions to the front of out, if there is room.
#[tactic(auto, using(crate::proofs::Answering::no_room, crate::proofs::Answering::written), unfolding(lists::specs::Lists::laid))]
fn lay(positions: &[u32], out: &mut [u32]) -> Result<usize, Refusal>
    ensures { Written positions.now out.old result out.new }
{
    let count = positions.len();
    if out.len() < count {
        return Err(Refusal::ShortOutput);
    }
    out[..count].copy_from_slice(positions);
    Ok(count)
}

// Writes the positions of the day's unbeaten quotes into out, oldest first, and hands back how many.
pub fn sheet(
    d: u32,
    directions: u32,
    count: u32,
    columns: &[u32],
    out: &mut [u32],
) -> Result<usize, Refusal>
    ensures { Sheeted d directions count columns.now out.old result out.new }
{
    judge(d, directions, count, columns.len())?;
    let day = Day {
        dimensions: d as usize,
        directions,
        count: count as usize,
        columns,
    };
    let mut cells = [0u32; LONGEST_DAY as usize];
    day.sheet_in(&mut cells, out)
}
