// The comparison of two quotes: how the first stands to the second by their columns, in four answers (02, 7/13).
#![tactic(auto)]

ghost use Rattle.std.specs.Prelude.{◌≡◌};
ghost use Rattle.host_standing.specs.Standing.{standing_by, number, answered, comparison};

use dominance::{Comparison, compare};
use refusals::Refusal;

// How the first of two quotes stands to the second, by their columns alone. The numbers are 02's.
#[derive(Clone, Copy)]
pub enum Standing {
    FirstBetter = 100,
    SecondBetter = 101,
    Equal = 102,
    Neither = 103,
}

impl Standing {
    // The number of the answer.
    pub fn number(self) -> u32
        ensures { result ≡ number self }
    {
        self as u32
    }

    // The two flags of a comparison as one answer.
    #[tactic(auto, unfolding(crate::specs::Standing::standing_by))]
    fn by_flags(found: Comparison) -> Standing
        ensures { result ≡ standing_by found.better found.worse }
    {
        match (found.better, found.worse) {
            (true, false) => Standing::FirstBetter,
            (false, true) => Standing::SecondBetter,
            (false, false) => Standing::Equal,
            (true, true) => Standing::Neither,
        }
    }
}

// Compares two quotes, each with all its columns: refused with 4 or 3, in that order, or how the first stands to the second.
#[tactic(auto, using(crate::proofs::Standings::flags, crate::proofs::Refusals::few, crate::proofs::Refusals::many, crate::proofs::Refusals::unlike, crate::proofs::Refusals::high_bit, crate::proofs::Refusals::stands))]
pub fn compare_quotes(directions: u32, first: &[u32], second: &[u32]) -> Result<Standing, Refusal>
    ensures { answered result ≡ comparison directions first.now second.now }
{
    let d = first.len();
    if d < 1 || 6 < d || d != second.len() {
        return Err(Refusal::ColumnCount);
    }
    if directions >> d != 0 {
        return Err(Refusal::Settings);
    }
    Ok(Standing::by_flags(compare(directions, d, first, second, 0)))
}
