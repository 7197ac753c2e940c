// The desks' shares of the eight records: what each desk has, and whether it is full.
ghost use Rattle.std.specs.Prelude.{◌≡◌, ◌==◌, ◌≤◌, length, count_by};
ghost use Rattle.head.specs.Desks.{desk_in};
ghost use Rattle.model.specs.Book.{standing};
ghost use Rattle.model.specs.Shares.{count_of, above_shares, desk_full};

use crate::desks::{desk_number, desk_of};
use head::Desk;

// How many of these records, eight at most, have a desk's number. They are summed: `filter` and `count` cost the calls on watches up to a third
// more instructions.
fn count_number(number: u32, watches: &[u64]) -> usize
    requires { length watches.now ≤ 8 }
    ensures { result ≡ count_by (λ watch. desk_in watch == number) watches.now }
{
    watches
        .iter()
        .map(|watch| usize::from(desk_of(*watch) == number))
        .sum()
}

// How many watches a desk has.
pub fn count_of(desk: Desk, watches: [u64; 8]) -> usize
    ensures { result ≡ count_of desk (standing watches) }
{
    let number = desk_number(desk);
    count_number(number, &watches)
}

// How many watches the desks have above 3 each.
#[tactic(auto, unfolding(model::specs::Shares::above_shares))]
pub fn above_shares(watches: [u64; 8]) -> usize
    ensures { result ≡ above_shares (standing watches) }
{
    count_of(Desk::One, watches).saturating_sub(3) + count_of(Desk::Two, watches).saturating_sub(3)
}

// Whether a desk has 3 or more, and the watches that the desks have above 3 each come to 2.
#[tactic(auto, unfolding(model::specs::Shares::desk_full))]
pub fn full(desk: Desk, watches: [u64; 8]) -> bool
    ensures { result ≡ desk_full desk (standing watches) }
{
    (3 <= count_of(desk, watches)) & (2 <= above_shares(watches))
}
