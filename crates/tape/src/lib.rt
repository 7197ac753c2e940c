// Playing a tape: one frame on a book with lent tables, its lines laid at the start of a lent text.
#![tactic(auto)]

mod playing;

ghost use Rattle.lent_tables.specs.Lent.{lent};

pub use head::CHANGE_BYTES;
use head::{CHANGE_FRAME, PLACES};
pub use line_answers::Step;
pub use playing::{play, play_known};

// What playing a frame hands back, and how many places later the rows begin where none was moved.
#[derive(Clone, Copy)]
pub struct SlidStep {
    pub step: Step,
    pub by: usize,
}

// How many bytes the line of a change has at most: its letter, desk two's 2 and newline, and a space and ten digits for n and the position.
pub const CHANGE_LINE: usize = 3 + 11 * 2;

// How many bytes the line of the longest list has at most: as that of a change, with n1, n2 and all positions.
pub const LIST_LINE: usize = 3 + 11 * (2 + PLACES);

// How many bytes the lines of any frame have room in: the longest list, and for every seven bytes of changes a line.
pub const TEXT_BYTES: usize = LIST_LINE + CHANGE_LINE * (CHANGE_BYTES / CHANGE_FRAME);
