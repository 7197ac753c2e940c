// A day of quotes in the table of columns that holds them.
ghost use Rattle.std.specs.Prelude.{◌*◌, ◌≤◌, length};

// The most quotes of a day.
pub const LONGEST_DAY: u32 = 4096;

// A day: how many columns its quotes have, in which directions, how many quotes there are, and the table that holds them, the quote at
// position 1 first.
#[derive(Clone, Copy)]
pub struct Day<'a> {
    pub dimensions: usize,
    pub directions: u32,
    pub count: usize,
    pub columns: &'a [u32],
    pub ghost few_columns: { dimensions ≤ 6 },
    pub ghost not_too_long: { count ≤ 4096 },
    pub ghost quotes_held: { dimensions * count ≤ length columns.now },
}
