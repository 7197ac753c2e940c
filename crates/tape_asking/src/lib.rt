// What a frame of a tape asks for: a call, nothing at the end, or a refusal; and whether it stands in its place.
#![tactic(auto)]

ghost use Rattle.std.specs.Prelude.{◌≡◌, List, ℕ};
ghost use Rattle.frames.specs.Frames.{saying};
ghost use Rattle.tape_asking.specs.Asking.{sized_asks, pair_asks, bare_asks, asks, asked};
ghost use Rattle.tape_asking.specs.Placing.{frame_wants, wants, out_of_place};
ghost use Rattle.tape_asking.specs.Reading.{WishAt};

use frames::{LOOK, Message, PAIR, PAST, UNPAIR, UNWATCH, UNWATCH_TWO, WATCH, WATCH_TWO, read_at};
use head::{Desk, Head};
use refusals::Refusal;

// What a frame that was read wants of the player: a call, or none, as it is out of place. That is no `Err(Refusal::OutOfPlace)`, by the contract of
// `placed`: a message refused with 7 is `unread`, which ends the tape (`asked_ends`).
#[derive(Clone, Copy)]
pub enum Wanted {
    // How many columns.
    Quote(u8),
    // A look at the list of n.
    Look(u16),
    // A look at the past list of n1 and n2.
    Past(u16, u16),
    // A desk's watch of n.
    Watch(Desk, u16),
    // The end of a desk's watch of n.
    End(Desk, u16),
    // A watch of the pair n1 and n2.
    Pair(u16, u16),
    // The end of the pair.
    Unpair,
    // An opening: d, N and directions.
    Open(u8, u16, u8),
    Misplaced,
}

// What a frame with n wants, by its kind; no other kind has a place on a tape.
#[tactic(auto, unfolding(crate::specs::Placing::frame_wants, crate::specs::Asking::sized_asks))]
fn sized(kind: u8, n: u16) -> Wanted
    ensures { (columns : List ℕ) → frame_wants result columns ≡ sized_asks kind n }
{
    match kind {
        LOOK => Wanted::Look(n),
        WATCH => Wanted::Watch(Desk::One, n),
        UNWATCH => Wanted::End(Desk::One, n),
        WATCH_TWO => Wanted::Watch(Desk::Two, n),
        UNWATCH_TWO => Wanted::End(Desk::Two, n),
        _ => Wanted::Misplaced,
    }
}

// What a frame with n1 and n2 wants, by its kind; no other kind has a place on a tape.
#[tactic(auto, unfolding(crate::specs::Placing::frame_wants, crate::specs::Asking::pair_asks))]
fn paired(kind: u8, n1: u16, n2: u16) -> Wanted
    ensures { (columns : List ℕ) → frame_wants result columns ≡ pair_asks kind n1 n2 }
{
    match kind {
        PAST => Wanted::Past(n1, n2),
        PAIR => Wanted::Pair(n1, n2),
        _ => Wanted::Misplaced,
    }
}

// What a frame with no body wants, by its kind; no other kind has a place on a tape.
#[tactic(auto, unfolding(crate::specs::Placing::frame_wants, crate::specs::Asking::bare_asks))]
fn bare(kind: u8) -> Wanted
    ensures { (columns : List ℕ) → frame_wants result columns ≡ bare_asks kind }
{
    match kind {
        UNPAIR => Wanted::Unpair,
        _ => Wanted::Misplaced,
    }
}

// What a message wants, if it is no end of the tape and could be read; a change has no place on a tape.
#[tactic(auto, unfolding(crate::specs::Placing::frame_wants, crate::specs::Placing::wants, crate::specs::Asking::asks))]
fn asks(message: Message) -> Result<Option<Wanted>, Refusal>
    ensures { (columns : List ℕ) → wants result columns ≡ asks message columns }
{
    match message {
        Message::Quote(k) => Ok(Some(Wanted::Quote(k))),
        Message::Sized(kind, n) => Ok(Some(sized(kind, n))),
        Message::Pair(kind, n1, n2) => Ok(Some(paired(kind, n1, n2))),
        Message::Bare(kind) => Ok(Some(bare(kind))),
        Message::Open(d, n, directions) => Ok(Some(Wanted::Open(d, n, directions))),
        Message::Change(..) | Message::Position(..) => Ok(Some(Wanted::Misplaced)),
        Message::EndOfTape => Ok(None),
        Message::Refused(refusal) => Err(refusal),
    }
}

// Whether what is wanted is out of place (01: 7): an opening after an accepted one, any other call before one.
#[tactic(auto, unfolding(crate::specs::Placing::out_of_place))]
fn misplaced(begun: bool, wanted: Wanted) -> bool
    ensures { result ≡ out_of_place begun wanted }
{
    match wanted {
        Wanted::Open(..) => begun,
        Wanted::Misplaced => false,
        _ => !begun,
    }
}

// What a message wants, in its place.
pub fn placed(begun: bool, message: Message) -> Result<Option<Wanted>, Refusal>
    ensures { (columns : List ℕ) → wants result columns ≡ asked begun (saying message) columns }
{
    match asks(message)? {
        Some(wanted) if misplaced(begun, wanted) => Ok(Some(Wanted::Misplaced)),
        Some(wanted) => Ok(Some(wanted)),
        None => Ok(None),
    }
}

// What stands at a place of a tape: what it wants of the player, none at the end of the tape, or why it cannot be read; the columns of
// its quote; and the place behind it.
#[derive(Clone, Copy)]
pub struct Wish {
    pub wanted: Result<Option<Wanted>, Refusal>,
    pub columns: [u32; 6],
    pub next: usize,
}

// Reads the frame at a place of a tape, and judges its place on the tape.
pub fn wish_at(tape: &[u8], place: usize, head: Head) -> Wish
    ensures { WishAt tape.now place head result.wanted result.columns result.next }
{
    let read = read_at(tape, place);
    // A field that is an array goes into a literal by a variable: the borrow checker does not cover it straight.
    let columns = read.columns;
    Wish {
        wanted: placed(head.settings_hold(), read.message),
        columns,
        next: read.next,
    }
}
