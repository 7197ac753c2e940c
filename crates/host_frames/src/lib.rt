// The reader of frames and their writer for a C host, with a frame in seven cells: its kind and six values.
#![tactic(auto)]

ghost use Rattle.std.specs.Prelude.{◌≡◌, MatchOption};
ghost use Rattle.frames.specs.Frames.{read_at};
ghost use Rattle.frames.specs.Moved.{Moved};
ghost use Rattle.host_frames.specs.FrameCells.{message_number, message_cells, saying_number, saying_cells, CellsWritten};
ghost use Rattle.host_frames.specs.FrameCells.{message_in, columns_in};

use frame_kinds::{Shape, shape_of};
use frame_writer::write;
use frames::{Message, OPEN, Place, Read, read_next};

// What is read at the place, and the place after it.
pub fn read(tape: &[u8], place: Place) -> (Read, Place)
    ensures { Moved tape.now place result.0 result.1 }
{
    let mut held = place;
    let read = read_next(tape, &mut held);
    (read, held)
}

// 0 for a frame and for the end of the tape, else the number of the refusal.
fn reading_number(message: Message) -> u32
    ensures { result ≡ message_number message }
{
    match message {
        Message::Refused(refusal) => refusal.number(),
        _ => 0,
    }
}

// The cells of what was read: kind and values, zeros at the end of the tape, and the cells as they were where it is refused.
fn reading_cells(message: Message, columns: [u32; 6], before: [u32; 7]) -> [u32; 7]
    ensures { result ≡ message_cells message columns before }
{
    match message {
        Message::Quote(k) => [
            u32::from(k),
            columns[0],
            columns[1],
            columns[2],
            columns[3],
            columns[4],
            columns[5],
        ],
        Message::Sized(k, n) => [u32::from(k), u32::from(n), 0, 0, 0, 0, 0],
        Message::Change(k, n, position) => [u32::from(k), u32::from(n), position, 0, 0, 0, 0],
        Message::Pair(k, n1, n2) => [u32::from(k), u32::from(n1), u32::from(n2), 0, 0, 0, 0],
        Message::Bare(k) => [u32::from(k), 0, 0, 0, 0, 0, 0],
        Message::Position(k, position) => [u32::from(k), position, 0, 0, 0, 0, 0],
        Message::Open(d, n, directions) => [
            u32::from(OPEN),
            u32::from(d),
            u32::from(n),
            u32::from(directions),
            0,
            0,
            0,
        ],
        Message::EndOfTape => [0; 7],
        Message::Refused(_) => before,
    }
}

// Reads the frame at the lent place, into seven cells, and moves the place past it.
#[tactic(auto, using(crate::proofs::Reading::read_place))]
#[unsafe(no_mangle)]
pub extern "C" fn bqb_read(tape: &[u8], place: &mut usize, frame: &mut [u32; 7]) -> u32
    ensures value { result ≡ saying_number (read_at tape.now place.old).says }
    ensures place_after { place.new ≡ (read_at tape.now place.old).next }
    ensures frame_after { frame.new ≡ saying_cells (read_at tape.now place.old).says
        (read_at tape.now place.old).columns frame.old }
{
    let (read, after) = read(tape, Place { at: *place });
    *place = after.at;
    *frame = reading_cells(read.message, read.columns, *frame);
    reading_number(read.message)
}

// The message that seven cells hold; none where the kind is unknown or a value does not fit.
#[tactic(auto, unfolding(crate::specs::FrameCells::message_in, crate::specs::FrameCells::shaped_in, crate::specs::FrameCells::sized_in, crate::specs::FrameCells::change_in, crate::specs::FrameCells::pair_in, crate::specs::FrameCells::open_in))]
fn message_of(cells: [u32; 7]) -> Option<Message>
    ensures { MatchOption result (Message.EndOfTape ≡ message_in cells) (λ m. m ≡ message_in cells) }
{
    let kind = u8::try_from(cells[0]).ok()?;
    let message = match shape_of(kind) {
        Shape::Columns => Message::Quote(kind),
        Shape::Size => Message::Sized(kind, u16::try_from(cells[1]).ok()?),
        Shape::SizePosition => Message::Change(kind, u16::try_from(cells[1]).ok()?, cells[2]),
        Shape::SizePair => Message::Pair(
            kind,
            u16::try_from(cells[1]).ok()?,
            u16::try_from(cells[2]).ok()?,
        ),
        Shape::Bare => Message::Bare(kind),
        Shape::Position => Message::Position(kind, cells[1]),
        Shape::Settings => Message::Open(
            u8::try_from(cells[1]).ok()?,
            u16::try_from(cells[2]).ok()?,
            u8::try_from(cells[3]).ok()?,
        ),
        Shape::Unknown => return None,
    };
    Some(message)
}

// The six values of a frame, the columns of a quote.
#[tactic(auto, unfolding(crate::specs::FrameCells::columns_in))]
fn columns_of(cells: [u32; 7]) -> [u32; 6]
    ensures { result ≡ columns_in cells }
{
    [cells[1], cells[2], cells[3], cells[4], cells[5], cells[6]]
}

// Writes a frame that seven cells hold over the front of the output, and hands back how many bytes: 1 where the cells hold none, then 13.
#[tactic(auto, using(crate::proofs::Reading::write_told))]
#[unsafe(no_mangle)]
pub extern "C" fn bqb_write(frame: &[u32; 7], out: &mut [u8], count: &mut usize) -> u32
    ensures { CellsWritten frame.now out.old result count.new out.new }
{
    let message = message_of(*frame).unwrap_or(Message::EndOfTape);
    match write(message, columns_of(*frame), out) {
        Ok(written) => {
            *count = written;
            0
        }
        Err(refusal) => {
            *count = 0;
            refusal.number()
        }
    }
}
