// The notation of a tape, line by line: a letter, a 2 behind it where the line is desk two's, and its numbers, in decimal, with one space
// before each. A line is read as a message.
#![tactic(auto)]

mod lines;

use frames::Message;
pub use line_fields::line_end;
pub use lines::{read_line, write_line};

// What a line says: its message, or a refusal where it says none, and its numbers with zeros behind them.
#[derive(Clone, Copy)]
pub struct Parsed {
    pub message: Message,
    pub numbers: [u32; 6],
}
