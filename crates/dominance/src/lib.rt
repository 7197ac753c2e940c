// Dominance of one quote over another (01: beats).
#![tactic(auto)]

ghost use Rattle.std.specs.Prelude.{◌≡◌, ◌&&◌, not, ◌+◌, ◌≤◌, length, drop};
ghost use Rattle.dominance.specs.Dominance.{better, higher};
ghost use Rattle.dominance.specs.Compared.{compared};
ghost use Rattle.dominance.specs.Turned.{mask};

// How a quote stands to another: whether it is better in some column, and whether it is worse in some column.
#[derive(Clone, Copy)]
pub struct Comparison {
    pub better: bool,
    pub worse: bool,
}

impl Comparison {
    // Whether the quote is over the other, which is older: it is worse in no column.
    pub fn over_older(self) -> bool
        ensures { result ≡ not self.worse }
    {
        !self.worse
    }

    // Whether the other, which is older, is over the quote: the quote is worse in some column and better in none.
    pub fn under_older(self) -> bool
        ensures { result ≡ self.worse && not self.better }
    {
        self.worse & !self.better
    }
}

// The mask of a column whose direction bit is the lowest of bits: of two values with the mask's bits turned, the lower is the better.
#[tactic(auto, using(crate::proofs::Comparing::lowest), unfolding(crate::specs::Turned::mask))]
fn mask(bits: u32) -> u32
    ensures { result ≡ mask (higher bits 0) }
{
    if bits & 1 == 1 { u32::MAX } else { 0 }
}

// Whether x is better than y in a column whose direction bit is the lowest of bits.
#[tactic(auto, using(crate::proofs::Turning::turned_better))]
fn is_better(bits: u32, x: u32, y: u32) -> bool
    ensures { result ≡ better (higher bits 0) x y }
{
    let turned = mask(bits);
    (x ^ turned) < (y ^ turned)
}

// Compares the first d columns of a quote with the d cells from start on. A zip of the two slices costs a call at two columns 66
// instructions in place of 60.
pub fn compare(directions: u32, d: usize, quote: &[u32], cells: &[u32], start: usize) -> Comparison
    requires d_in_bounds { d ≤ length quote.now }
    requires d_in_bounds_2 { start + d ≤ length cells.now }
    ensures { result ≡ compared d directions quote.now (drop start cells.now) }
{
    let mut bits = directions;
    let mut better = false;
    let mut worse = false;
    for i in 0..d {
        let x = quote[i];
        let y = cells[start + i];
        better |= is_better(bits, x, y);
        worse |= is_better(bits, y, x);
        bits >>= 1;
    }
    Comparison { better, worse }
}

// The same, with each of 01's numbers of columns as a constant, so that the loop over them is unrolled: a call at six columns takes 84
// instructions, one of `compare` 124.
#[inline(always)]
pub fn compare_unrolled(
    directions: u32,
    d: usize,
    quote: &[u32],
    cells: &[u32],
    start: usize,
) -> Comparison
    requires d_in_bounds { d ≤ length quote.now }
    requires d_in_bounds_2 { start + d ≤ length cells.now }
    ensures { result ≡ compared d directions quote.now (drop start cells.now) }
{
    match d {
        1 => compare(directions, 1, quote, cells, start),
        2 => compare(directions, 2, quote, cells, start),
        3 => compare(directions, 3, quote, cells, start),
        4 => compare(directions, 4, quote, cells, start),
        5 => compare(directions, 5, quote, cells, start),
        6 => compare(directions, 6, quote, cells, start),
        _ => compare(directions, d, quote, cells, start),
    }
}
