// Frames: the message of a frame, and reading one from a tape, at a place or by a lent one.
#![tactic(auto)]

mod places;
mod reader;

pub use frame_kinds::{
    JOIN, JOIN_TWO, LEAVE, LEAVE_TWO, LOOK, OPEN, PAIR, PAIR_JOIN, PAIR_LEAVE, PAST, UNPAIR,
    UNWATCH, UNWATCH_TWO, WATCH, WATCH_TWO, body_length, known_length,
};
pub use places::read_next;
pub use reader::read_at;
use refusals::Refusal;

// A message: what a frame says, or that there is none to read, which the writer answers with 1 (`frame_writer::write`) and of which the
// theorems on frames speak too. A quote's columns stand beside it.
#[derive(Clone, Copy)]
pub enum Message {
    // How many columns.
    Quote(u8),
    // A kind, and n.
    Sized(u8, u16),
    // A kind, n and a position.
    Change(u8, u16, u32),
    // A kind, n1 and n2.
    Pair(u8, u16, u16),
    // A kind alone.
    Bare(u8),
    // A kind and a position.
    Position(u8, u32),
    // An opening: d, N and directions.
    Open(u8, u16, u8),
    EndOfTape,
    Refused(Refusal),
}

// What was read: the message, a quote's columns with zeros behind them, and the place behind the frame.
#[derive(Clone, Copy)]
pub struct Read {
    pub message: Message,
    pub columns: [u32; 6],
    pub next: usize,
}

// A place of a tape: how many bytes stand before it. A struct, since what `read_next` promises of the lent place, `Moved`, speaks of it.
#[derive(Clone, Copy)]
pub struct Place {
    pub at: usize,
}
