// The quoting drill: whether the first of two hands wins against every reply, and which quote it lays first.
#![tactic(auto)]

ghost use Rattle.std.specs.Prelude.{◌≡◌, ◌<◌, ◌≤◌, ◌++◌, length, IfSome};
ghost use Rattle.refusals.specs.Refusals.{number_of, first_of};
ghost use Rattle.drill_model.specs.Drill.{drill_place};
ghost use Rattle.drill_turns.specs.Plays.{place_number};
ghost use Rattle.drill_call.specs.Drills.{uneven, quotes_of, refusals, Small, saying, drilled};

pub use drill_turns::Rules;
use drill_turns::{Game, Play};
use head::Head;
use refusals::Refusal;

// A hand: how many quotes, how many columns each of them has, and their columns, six cells for each quote; the arrays are of fixed length,
// since there is no heap.
#[derive(Clone, Copy)]
pub struct Hand {
    pub count: u32,
    pub columns: [u32; 4],
    pub cells: [u32; 24],
}

// Whether a quote of a hand has another number of columns.
fn is_uneven(hand: Hand, dimensions: u32) -> bool
    requires { hand.count ≤ 4 }
    ensures { result ≡ uneven dimensions hand }
{
    hand.columns[..hand.count as usize]
        .iter()
        .any(|columns| *columns != dimensions)
}

// Whether the drill may be played: 3, 19, 4, 5.
#[tactic(auto, using(crate::proofs::Judging::by_head, crate::proofs::Judging::few_first, crate::proofs::Judging::few_second), unfolding(crate::specs::Drills::refusals, refusals::specs::Refusals::first_of))]
fn judge(rules: Rules, first: Hand, second: Hand) -> Result<(), Refusal>
    ensures { number_of result ≡ first_of (refusals rules first second) }
{
    let d = rules.dimensions;
    if !Head::fresh(d, rules.capacity, rules.directions).settings_hold() {
        return Err(Refusal::Settings);
    }
    if (4 < first.count) | (4 < second.count) | (8 < rules.capacity) {
        return Err(Refusal::DrillSize);
    }
    if is_uneven(first, d) | is_uneven(second, d) {
        return Err(Refusal::ColumnCount);
    }
    if (rules.n < 1) | (rules.capacity < rules.n) {
        return Err(Refusal::WindowSize);
    }
    Ok(())
}

// The quotes of both hands, those of the first before those of the second.
fn joined(first: [u32; 24], second: [u32; 24]) -> [u32; 48]
    ensures { (result ≡ first ++ second) × (length first ≡ 24) }
{
    let mut quotes = [0u32; 48];
    let (mine, theirs) = quotes.split_at_mut(24);
    mine.copy_from_slice(&first);
    theirs.copy_from_slice(&second);
    quotes
}

// The earliest place of the first hand, counted from 0, whose laying keeps the win.
fn best_place(rules: Rules, first: Hand, second: Hand) -> Option<usize>
    requires { Small rules first second }
    ensures place { place_number result ≡ drill_place rules.dimensions rules.capacity rules.directions rules.n
        (quotes_of rules.dimensions first) (quotes_of rules.dimensions second) }
    ensures within { IfSome result (λ i. i < 4) }
{
    let quotes = joined(first.cells, second.cells);
    let game = Game {
        quotes: &quotes,
        rules,
    };
    game.first_turn(Play::start(first.count as usize, second.count as usize))
}

// The drill with these rules and hands: yes, with the place in the first hand of the quote to lay first, counted from 1, exactly if the first
// side has a way of choosing that wins against every reply; or no.
pub fn drill(rules: Rules, first: Hand, second: Hand) -> Result<Option<u32>, Refusal>
    ensures { saying result ≡ drilled rules first second }
{
    judge(rules, first, second)?;
    let place = best_place(rules, first, second);
    Ok(place.map(|i| i as u32 + 1))
}
