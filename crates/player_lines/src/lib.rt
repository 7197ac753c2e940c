// The lines of the book player: a word, the name of a table where the word wants one, and numbers in decimal with one space before each; and
// its input, in which they are found (src/input.rt).
#![tactic(auto)]

ghost use Rattle.std.specs.Prelude.{◌≤◌, length};

mod input;
mod words;

use head::Desk;
pub use input::Input;
pub use words::read_line;

// The most numbers of a line.
const NUMBERS: usize = 12;

// The numbers of a line. An array with a count: there is no heap, and no line has more.
#[derive(Clone, Copy)]
pub struct Numbers {
    cells: [u32; NUMBERS],
    count: usize,
    ghost within: { count ≤ 12 },
}

// What a line names: a table, the output, the cells for the look behind a quote in one, the n of the records or their desks.
#[derive(Clone, Copy)]
pub enum Name {
    Columns,
    Positions,
    LowerEnds,
    UpperEnds,
    Out,
    Cells,
    Watches,
    Desks,
}

// What a line asks for, with its numbers; of a watch and its end, whose it is. Or the line is one that the player cannot take.
#[derive(Clone, Copy)]
pub enum Command {
    Unread,
    Open([u32; 3]),
    Quote(Numbers),
    Both(u32, Numbers),
    Preview(Numbers),
    Look(u32),
    Past(u32, u32),
    Watch(Desk, u32),
    End(Desk, u32),
    Pair(u32, u32),
    Unpair,
    Due,
    Audit,
    Lend(Name, usize),
    Cell(Name, usize, u32),
    Head([u32; 8]),
    Show,
}

impl Numbers {
    // No numbers.
    fn none() -> Numbers {
        Numbers {
            cells: [0; NUMBERS],
            count: 0,
        }
    }

    // Puts a number behind the others; none where there are twelve.
    fn push(&mut self, n: u32) -> Option<()> {
        if self.count == NUMBERS {
            return None;
        }
        self.cells[self.count] = n;
        self.count += 1;
        Some(())
    }

    // As many numbers as a line can have, of a list.
    fn of(numbers: &[u32]) -> Option<Numbers> {
        let mut all = Numbers::none();
        for n in numbers {
            all.push(*n)?;
        }
        Some(all)
    }

    // The numbers as a list.
    pub fn as_slice(&self) -> &[u32]
        ensures { length result.now ≤ 12 }
    {
        &self.cells[..self.count]
    }
}
