// A venue's tape: stamps, and quotes each directly behind its stamp. What such a tape has next, at a place, with its last stamp.
#![tactic(auto)]

ghost use Rattle.std.specs.Prelude.{◌≡◌};
ghost use Rattle.frames.specs.Frames.{read_at};
ghost use Rattle.venue_tapes.specs.VenueTapes.{out_of_order, sort_of, glimpsed, after_stamp, next, ahead};

use frame_kinds::{MAX_COLUMNS, STAMP, body_length};
use octets::four_at;
use refusals::Refusal;

// The last millisecond of a day.
const LAST_MILLISECOND: u32 = 86399999;

// What stands at a place of a venue's tape.
#[derive(Clone, Copy)]
pub enum Glimpse {
    // A quote: the place behind it.
    Quote(usize),
    // A stamp: its milliseconds, and the place behind it.
    Stamp(u32, usize),
    // A frame that has no place on a venue's tape.
    Stray,
    EndOfTape,
}

// A stamped quote: its stamp, and the place behind both frames.
#[derive(Clone, Copy)]
pub struct Pair {
    pub stamp: u32,
    pub next: usize,
}

// What stands at a place, as far as a venue's tape is concerned: 2 beyond the end, 1 for an unknown kind, 2 for a cut frame.
#[tactic(auto, using(crate::proofs::Glimpses::glimpses), unfolding(crate::specs::VenueTapes::glimpsed))]
fn glimpse_at(tape: &[u8], place: usize) -> Result<Glimpse, Refusal>
    ensures { glimpsed result ≡ sort_of (read_at tape.now place) }
{
    if tape.len() < place {
        return Err(Refusal::CutFrame);
    }
    if place == tape.len() {
        return Ok(Glimpse::EndOfTape);
    }
    let kind = tape[place];
    let length = body_length(kind);
    if length == 255 {
        return Err(Refusal::UnknownKind);
    }
    let body = place + 1;
    let next = body + usize::from(length);
    if tape.len() < next {
        return Err(Refusal::CutFrame);
    }
    match kind {
        0..=MAX_COLUMNS => Ok(Glimpse::Quote(next)),
        STAMP => Ok(Glimpse::Stamp(four_at(tape, body), next)),
        _ => Ok(Glimpse::Stray),
    }
}

// Whether a stamp is below the last one of its tape, or above the last of a day.
#[tactic(auto, unfolding(crate::specs::VenueTapes::out_of_order))]
fn is_out_of_order(last: u32, stamp: u32) -> bool
    ensures { result ≡ out_of_order last stamp }
{
    stamp < last || LAST_MILLISECOND < stamp
}

// What a stamp and what stands behind it are: 7, 15, 16, in that order, else a pair.
#[tactic(auto, unfolding(crate::specs::VenueTapes::after_stamp, crate::specs::VenueTapes::alone, crate::specs::VenueTapes::ahead, crate::specs::VenueTapes::glimpsed))]
fn after_stamp(last: u32, stamp: u32, behind: Glimpse) -> Result<Option<Pair>, Refusal>
    ensures { ahead result ≡ after_stamp last stamp (glimpsed (Ok behind)) }
{
    match behind {
        Glimpse::Stray => Err(Refusal::OutOfPlace),
        _ if is_out_of_order(last, stamp) => Err(Refusal::StampOrder),
        Glimpse::Quote(next) => Ok(Some(Pair { stamp, next })),
        Glimpse::Stamp(..) | Glimpse::EndOfTape => Err(Refusal::Unmatched),
    }
}

// The stamped quote that a venue's tape has next, at a place, with its last stamp as given; none at the tape's end.
#[tactic(auto, using(crate::proofs::Glimpses::nexts), unfolding(crate::specs::VenueTapes::ahead_by, crate::specs::VenueTapes::after_stamp, crate::specs::VenueTapes::ahead, crate::specs::VenueTapes::glimpsed))]
#[inline(always)]
pub fn next_pair(tape: &[u8], place: usize, last: u32) -> Result<Option<Pair>, Refusal>
    ensures { ahead result ≡ next tape.now place last }
{
    match glimpse_at(tape, place)? {
        Glimpse::Stamp(stamp, behind) => after_stamp(last, stamp, glimpse_at(tape, behind)?),
        Glimpse::Quote(_) => Err(Refusal::Unmatched),
        Glimpse::Stray => Err(Refusal::OutOfPlace),
        Glimpse::EndOfTape => Ok(None),
    }
}
