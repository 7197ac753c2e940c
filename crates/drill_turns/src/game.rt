// A game of the drill: its rules, the quotes of both hands, and a play of it.
ghost use Rattle.std.specs.Prelude.{◌≡◌, ◌+◌, ◌≤◌, length};

// The rules of a drill: 02's d, N, directions and n.
#[derive(Clone, Copy)]
pub struct Rules {
    pub dimensions: u32,
    pub capacity: u32,
    pub directions: u32,
    pub n: u32,
}

// The quotes of both hands by their numbers, six cells each: the first hand's are 0 to 3, the second's 4 to 7; and the rules.
#[derive(Clone, Copy)]
pub struct Game<'a> {
    pub quotes: &'a [u32],
    pub rules: Rules,
    pub ghost eight_quotes: { length quotes.now ≡ 48 },
    pub ghost few_columns: { rules.dimensions ≤ 6 },
}

// A hand: the numbers of its quotes, as many as are left. The array is of fixed length since there is no heap.
#[derive(Clone, Copy)]
pub struct Hand {
    pub numbers: [u32; 4],
    pub count: usize,
    pub ghost of_four: { length numbers ≡ 4 },
    pub ghost few: { count ≤ 4 },
}

// The numbers of the quotes laid, in their order, in an array of fixed length.
#[derive(Clone, Copy)]
pub struct Laid {
    pub numbers: [u32; 8],
    pub count: usize,
    pub ghost of_eight: { length numbers ≡ 8 },
    pub ghost few: { count ≤ 8 },
}

// A play: what is left of both hands, and the quotes laid.
#[derive(Clone, Copy)]
pub struct Play {
    pub first: Hand,
    pub second: Hand,
    pub laid: Laid,
    pub ghost all: { first.count + second.count + laid.count ≤ 8 },
}

// A side of the drill; the first begins.
#[derive(Clone, Copy)]
pub enum Side {
    First,
    Second,
}
