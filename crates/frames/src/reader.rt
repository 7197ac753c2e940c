// The reader: the message at a place of a tape.
ghost use Rattle.std.specs.Prelude.{◌≡◌, ◌+◌, ◌*◌, ◌≤◌, ◌<◌, length};
ghost use Rattle.frame_kinds.specs.Kinds.{body_length};
ghost use Rattle.frames.specs.Frames.{message_at, columns_at, saying, reading, stays, read_at};

use crate::{Message, Read};
use frame_kinds::{MAX_COLUMNS, Shape, known_length, shape_of};
use octets::{four_at, two_at};
use refusals::Refusal;

// The message of a kind, its whole body from a place on.
#[tactic(auto, unfolding(crate::specs::Frames::message_at, crate::specs::Frames::message_by, frame_kinds::specs::Kinds::body_length, frame_kinds::specs::Kinds::length_of))]
fn message_at(tape: &[u8], body: usize, kind: u8) -> Message
    requires { body + body_length kind ≤ length tape.now }
    ensures { result ≡ message_at tape.now body kind }
{
    match shape_of(kind) {
        Shape::Columns => Message::Quote(kind),
        Shape::Size => Message::Sized(kind, two_at(tape, body)),
        Shape::SizePosition => Message::Change(kind, two_at(tape, body), four_at(tape, body + 2)),
        Shape::SizePair => Message::Pair(kind, two_at(tape, body), two_at(tape, body + 2)),
        Shape::Bare => Message::Bare(kind),
        Shape::Position => Message::Position(kind, four_at(tape, body)),
        Shape::Settings => Message::Open(tape[body], two_at(tape, body + 1), tape[body + 3]),
        Shape::Unknown => Message::Refused(Refusal::UnknownKind),
    }
}

// The columns of a quote, its whole body from a place on, with zeros behind them.
#[tactic(auto, using(crate::proofs::ReadColumns::columns_none, crate::proofs::ReadColumns::columns_more, crate::proofs::ReadColumns::columns_all))]
fn quote_at(tape: &[u8], body: usize, kind: u8) -> [u32; 6]
    requires { (1 ≤ kind) × ((kind ≤ 6) × (body + 4 * kind ≤ length tape.now)) }
    ensures { result ≡ columns_at tape.now body kind }
{
    let mut columns = [0; 6];
    for i in 0..usize::from(kind) {
        columns[i] = four_at(tape, body + 4 * i);
    }
    columns
}

// Nothing is read: this message, no columns, and the place stays.
#[tactic(auto, unfolding(crate::specs::Frames::reading, crate::specs::Frames::stays))]
fn stay(message: Message, place: usize) -> Read
    ensures { reading result ≡ stays (saying message) place }
{
    Read {
        message,
        columns: [0; 6],
        next: place,
    }
}

// What is read at a place of a tape: 2 beyond the end, the end at the end, 1 for an unknown kind, 2 for a cut frame.
#[tactic(auto, unfolding(crate::specs::Frames::reading, crate::specs::Frames::read_at, crate::specs::Frames::saying, crate::specs::Frames::stays), using(crate::proofs::ReadCases::message_told, crate::proofs::ReadCases::quote_told_lem, crate::proofs::ReadColumns::no_columns, frame_kinds::proofs::Shapes::kind_known, frame_kinds::proofs::Shapes::low_quote, frame_kinds::proofs::Shapes::quote_body))]
pub fn read_at(tape: &[u8], place: usize) -> Read
    ensures { reading result ≡ read_at tape.now place }
{
    if tape.len() < place {
        return stay(Message::Refused(Refusal::CutFrame), place);
    }
    if place == tape.len() {
        return stay(Message::EndOfTape, place);
    }
    let kind = tape[place];
    let Some(length) = known_length(kind) else {
        return stay(Message::Refused(Refusal::UnknownKind), place);
    };
    let body = place + 1;
    let next = body + usize::from(length);
    if tape.len() < next {
        return stay(Message::Refused(Refusal::CutFrame), place);
    }
    if MAX_COLUMNS < kind {
        return Read {
            message: message_at(tape, body, kind),
            columns: [0; 6],
            next,
        };
    }
    Read {
        message: Message::Quote(kind),
        columns: quote_at(tape, body, kind),
        next,
    }
}
