// The last list of the drill: whether a quote of the first side stands on it, once quotes were laid on a fresh book.
ghost use Rattle.std.specs.Prelude.{◌≡◌, ◌-◌, ◌*◌, ◌%◌, ◌<◌, ltb, take};
ghost use Rattle.drill_turns.specs.Numbers.{over_at, dominated_at, won_by};

use crate::game::{Game, Laid};
use dominance::compare;

// Where the columns of the quote with a number begin: the cells have eight quotes, six cells each.
fn start_of(number: u32) -> usize
    ensures { result ≡ 6 * (number % 8) }
{
    (number % 8) as usize * 6
}

// Whether the quote with a number is the first side's: the first four are.
fn is_first(number: u32) -> bool
    ensures { result ≡ ltb (number % 8) 4 }
{
    number % 8 < 4
}

impl Game<'_> {
    // Whether the quote laid at place j is over the one laid at place i: worse in no column, and better in one or the later.
    #[tactic(auto, using(crate::proofs::LastList::over_found))]
    fn is_over(self, laid: Laid, j: usize, i: usize) -> bool
        requires { (j < 8) × (i < 8) }
        ensures { result ≡ over_at self.entry.quotes.now self.entry.rules laid.numbers j i }
    {
        let x = start_of(laid.numbers[j]);
        let y = start_of(laid.numbers[i]);
        let d = self.rules.dimensions as usize;
        let found = compare(self.rules.directions, d, &self.quotes[x..], self.quotes, y);
        !found.worse & (found.better | (i < j))
    }

    // Whether some quote laid from a place on is over the one laid at place i.
    fn is_dominated(self, laid: Laid, from: usize, i: usize) -> bool
        requires { i < 8 }
        ensures { result ≡ dominated_at self.entry.quotes.now self.entry.rules laid.numbers from (laid.count - from) i }
    {
        (from..laid.count).any(|j| self.is_over(laid, j, i))
    }

    // Whether a quote of the first side stands on the list of n, once these quotes were laid.
    pub fn first_stands(self, laid: Laid) -> bool
        ensures { result ≡ won_by self.entry.quotes.now self.entry.rules (take laid.count laid.numbers) }
    {
        let from = laid.count.saturating_sub(self.rules.n as usize);
        (from..laid.count).any(|i| !self.is_dominated(laid, from, i) && is_first(laid.numbers[i]))
    }
}
