// The two turns of the drill, which call each other: each quote laid leaves one fewer in hand; and the last list, on which they end.
#![tactic(auto)]

mod game;
mod last_list;

ghost use Rattle.std.specs.Prelude.{◌≡◌, ◌+◌, ◌-◌, ◌<◌, ◌≤◌, ltb};
ghost use Rattle.drill_turns.specs.Plays.{Without, Laying, Started, LaidFirst, LaidSecond, side_of, layer_by, place_number, place_in, wins_in, wins_on};

pub use game::{Game, Hand, Laid, Play, Rules, Side};

impl Hand {
    // The hand once the quote at place i is laid.
    fn without(self, i: usize) -> Hand
        requires { i < self.count }
        ensures { Without self i result }
    {
        let mut numbers = self.numbers;
        numbers.copy_within(i + 1.., i);
        Hand {
            numbers,
            count: self.count - 1,
        }
    }
}

impl Laid {
    // One quote more.
    fn with(self, number: u32) -> Laid
        requires { self.count < 8 }
        ensures { Laying self number result }
    {
        let mut numbers = self.numbers;
        numbers[self.count] = number;
        Laid {
            numbers,
            count: self.count + 1,
        }
    }
}

impl Play {
    // Before the first quote is laid: the first hand has the numbers from 0 on, the second those from 4 on.
    pub fn start(firsts: usize, seconds: usize) -> Play
        requires { (firsts ≤ 4) × (seconds ≤ 4) }
        ensures { Started firsts seconds result }
    {
        Play {
            first: Hand {
                numbers: [0, 1, 2, 3],
                count: firsts,
            },
            second: Hand {
                numbers: [4, 5, 6, 7],
                count: seconds,
            },
            laid: Laid {
                numbers: [0; 8],
                count: 0,
            },
        }
    }

    // Once the first side laid the quote at place i of its hand.
    fn lay_first(self, i: usize) -> Play
        requires { i < self.first.count }
        ensures { LaidFirst self i result }
    {
        Play {
            first: self.first.without(i),
            second: self.second,
            laid: self.laid.with(self.first.numbers[i]),
        }
    }

    // Once the second side laid the quote at place i of its hand.
    fn lay_second(self, i: usize) -> Play
        requires { i < self.second.count }
        ensures { LaidSecond self i result }
    {
        Play {
            first: self.first,
            second: self.second.without(i),
            laid: self.laid.with(self.second.numbers[i]),
        }
    }

    // The side that lays the next quote: the one whose turn it is, the other where its hand is empty, and none where both are.
    fn layer(self, turn: Side) -> Option<Side>
        ensures { result ≡ layer_by (ltb 0 self.first.count) (ltb 0 self.second.count) turn }
    {
        match (0 < self.first.count, 0 < self.second.count) {
            (true, true) => Some(turn),
            (true, false) => Some(Side::First),
            (false, true) => Some(Side::Second),
            (false, false) => None,
        }
    }
}

impl Game<'_> {
    // The first side's turn: the earliest place of its hand, counted from 0, whose laying keeps the win.
    #[cycle(turns)]
    pub fn first_turn(self, play: Play) -> Option<usize>
        ensures { place_number result ≡ place_in self.entry.quotes.now self.entry.rules play }
    {
        for i in 0..play.first.count {
            if self.wins(Side::Second, play.lay_first(i)) {
                return Some(i);
            }
        }
        None
    }

    // The second side's turn, with a quote in hand: whether the first side wins after each quote that it can lay.
    #[cycle(turns)]
    pub fn second_turn(self, play: Play) -> bool
        requires { 0 < play.second.count }
        ensures { result ≡ wins_in self.entry.quotes.now self.entry.rules play }
    {
        for i in 0..play.second.count {
            if !self.wins(Side::First, play.lay_second(i)) {
                return false;
            }
        }
        true
    }

    // Whether the first side wins, by whose turn it is: where both hands are empty the last list decides.
    #[cycle(turns)]
    fn wins(self, turn: Side, play: Play) -> bool
        ensures { result ≡ wins_on self.entry.quotes.now self.entry.rules (side_of turn) play }
    {
        match play.layer(turn) {
            Some(Side::First) => self.first_turn(play).is_some(),
            Some(Side::Second) => self.second_turn(play),
            None => self.first_stands(play.laid),
        }
    }
}
