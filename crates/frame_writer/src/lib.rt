// The writer: the frame of a message, over the front of a lent output.
#![tactic(auto)]

ghost use Rattle.std.specs.Prelude.{◌≡◌, ◌+◌, ◌*◌, ◌≤◌, [], true, false, MatchOption, length};
ghost use Rattle.lists.specs.Lists.{laid};
ghost use Rattle.frames.specs.Frames.{framed, kind_of, frame};
ghost use Rattle.frame_writer.specs.Writing.{frame_length, Wrote};

use frame_kinds::{OPEN, Shape, has_shape, known_length};
use frames::Message;
use octets::{lay_change, lay_number, lay_position, put_four, put_two};
use refusals::Refusal;

// Lays the frame of a pair of numbers.
#[tactic(auto, unfolding(frames::specs::Frames::frame, octets::specs::Bytes::bytes2, octets::specs::Placed::placed, lists::specs::Lists::laid))]
fn lay_pair(kind: u8, n1: u16, n2: u16, out: &mut [u8])
    requires { 5 ≤ length out.old }
    ensures { out.new ≡ laid (frame (Message.Pair kind n1 n2) []) out.old }
{
    lay_number(kind, n1, out);
    put_two(n2, 3, out);
}

// Lays the frame of an opening.
#[tactic(auto, unfolding(frames::specs::Frames::frame, octets::specs::Bytes::bytes2, octets::specs::Placed::placed, lists::specs::Lists::laid))]
fn lay_open(dimensions: u8, capacity: u16, directions: u8, out: &mut [u8])
    requires { 5 ≤ length out.old }
    ensures { out.new ≡ laid (frame (Message.Open dimensions capacity directions) [])
        out.old }
{
    out[0] = OPEN;
    out[1] = dimensions;
    put_two(capacity, 2, out);
    out[4] = directions;
}

// Lays the frame of a quote of at most 6 columns.
#[tactic(auto, using(crate::proofs::WriteColumns::start, crate::proofs::WriteColumns::more), unfolding(frames::specs::Frames::frame))]
fn lay_quote(kind: u8, columns: [u32; 6], out: &mut [u8])
    requires { (kind ≤ 6) × (1 + 4 * kind ≤ length out.old) }
    ensures { out.new ≡ laid (frame (Message.Quote kind) columns) out.old }
{
    out[0] = kind;
    for i in 0..usize::from(kind) {
        put_four(columns[i], 1 + 4 * i, out);
    }
}

// The kind of a message's frame; none where the message has no frame, as where its kind has another shape. Each shape is asked for by a call of
// its own, where it is a constant: a shape that is chosen first costs a writer of the shortest lines an eighth more instructions.
#[tactic(auto, using(frame_kinds::proofs::Shapes::open_shape), unfolding(frames::specs::Frames::framed))]
fn kind_of(message: Message) -> Option<u8>
    ensures { MatchOption result (framed message ≡ false) (λ kind. (framed message ≡ true) × (kind ≡ kind_of message)) }
{
    match message {
        Message::Quote(k) => has_shape(Shape::Columns, k).then_some(k),
        Message::Sized(k, _) => has_shape(Shape::Size, k).then_some(k),
        Message::Change(k, _, _) => has_shape(Shape::SizePosition, k).then_some(k),
        Message::Pair(k, _, _) => has_shape(Shape::SizePair, k).then_some(k),
        Message::Bare(k) => has_shape(Shape::Bare, k).then_some(k),
        Message::Position(k, _) => has_shape(Shape::Position, k).then_some(k),
        Message::Open(_, _, _) => Some(OPEN),
        Message::EndOfTape | Message::Refused(_) => None,
    }
}

// How many bytes the frame of a message has; none for a message with no frame.
#[tactic(auto, using(crate::proofs::WriteCases::framed_known, crate::proofs::WriteCases::length_framed))]
fn frame_length(message: Message) -> Option<usize>
    ensures { MatchOption result (framed message ≡ false) (λ n. (framed message ≡ true) × (n ≡ frame_length message)) }
{
    let length = known_length(kind_of(message)?)?;
    Some(1 + usize::from(length))
}

// Lays the frame of a message that has one.
#[tactic(auto, unfolding(frames::specs::Frames::frame, octets::specs::Bytes::bytes2, octets::specs::Bytes::bytes4, lists::specs::Lists::laid))]
fn lay(message: Message, columns: [u32; 6], out: &mut [u8])
    requires { (framed message ≡ true) × (length (frame message columns) ≤ length out.old) }
    ensures { out.new ≡ laid (frame message columns) out.old }
{
    match message {
        Message::Quote(k) => lay_quote(k, columns, out),
        Message::Sized(k, n) => lay_number(k, n, out),
        Message::Change(k, n, position) => lay_change(k, n, position, out),
        Message::Pair(k, n1, n2) => lay_pair(k, n1, n2, out),
        Message::Bare(k) => out[0] = k,
        Message::Position(k, position) => lay_position(k, position, out),
        Message::Open(d, n, directions) => lay_open(d, n, directions, out),
        Message::EndOfTape | Message::Refused(_) => {}
    }
}

// Writes the frame of a message over the front of the output, and returns how many bytes: 1 for a message with no frame, then 13.
#[tactic(auto, using(crate::proofs::WriteCases::frame_long, crate::proofs::WriteCases::refused_unframed, crate::proofs::WriteCases::refused_short, crate::proofs::WriteCases::accepted))]
pub fn write(message: Message, columns: [u32; 6], out: &mut [u8]) -> Result<usize, Refusal>
    ensures { Wrote message columns out.old result out.new }
{
    let length = frame_length(message).ok_or(Refusal::UnknownKind)?;
    if out.len() < length {
        return Err(Refusal::ShortOutput);
    }
    lay(message, columns, out);
    Ok(length)
}
