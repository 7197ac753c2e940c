// Reading a line as a message, and writing its frame.
ghost use Rattle.std.specs.Prelude.{◌≡◌, drop};
ghost use Rattle.std.specs.Option.{unwrap_or};
ghost use Rattle.frame_writer.specs.Writing.{Wrote};
ghost use Rattle.line_notation.specs.Lines.{nothing, whole, opening, quote_of, pair_of, bare_of, stamp_of, number_by, said, marked, sign_of, said_by};

use crate::Parsed;
use frame_kinds::STAMP;
use frames::{LOOK, Message, PAIR, PAST, UNPAIR, UNWATCH, UNWATCH_TWO, WATCH, WATCH_TWO};
use line_fields::{Fields, fields_from};
use refusals::Refusal;

// The opening of three numbers that fit its frame.
#[tactic(auto, unfolding(crate::specs::Lines::nothing, crate::specs::Lines::opens, crate::specs::Lines::opening))]
fn opening(fields: Fields) -> Option<Message>
    ensures { unwrap_or result nothing ≡ whole fields (opening fields) }
{
    let numbers = fields.numbers_if(3)?;
    let dimensions = u8::try_from(numbers[0]).ok()?;
    let capacity = u16::try_from(numbers[1]).ok()?;
    let directions = u8::try_from(numbers[2]).ok()?;
    Some(Message::Open(dimensions, capacity, directions))
}

// The quote of one to six numbers.
#[tactic(auto, unfolding(crate::specs::Lines::nothing, crate::specs::Lines::quote_of))]
fn quote(fields: Fields) -> Option<Message>
    ensures { unwrap_or result nothing ≡ whole fields (quote_of fields) }
{
    let count = fields.count;
    if count < 1 || 6 < count {
        return None;
    }
    fields.numbers_if(count)?;
    Some(Message::Quote(count as u8))
}

// The message of this kind with two numbers that fit two bytes each.
#[tactic(auto, unfolding(crate::specs::Lines::nothing, crate::specs::Lines::pairs, crate::specs::Lines::pair_of))]
fn pair(kind: u8, fields: Fields) -> Option<Message>
    ensures { unwrap_or result nothing ≡ whole fields (pair_of kind fields) }
{
    let numbers = fields.numbers_if(2)?;
    let first = u16::try_from(numbers[0]).ok()?;
    let second = u16::try_from(numbers[1]).ok()?;
    Some(Message::Pair(kind, first, second))
}

// The message of this kind without numbers.
#[tactic(auto, unfolding(crate::specs::Lines::nothing, crate::specs::Lines::bare_of))]
fn bare(kind: u8, fields: Fields) -> Option<Message>
    ensures { unwrap_or result nothing ≡ whole fields (bare_of kind fields) }
{
    fields.numbers_if(0)?;
    Some(Message::Bare(kind))
}

// The stamp of a single number.
#[tactic(auto, unfolding(crate::specs::Lines::nothing, crate::specs::Lines::stamp_of))]
fn stamp(fields: Fields) -> Option<Message>
    ensures { unwrap_or result nothing ≡ whole fields (stamp_of fields) }
{
    let numbers = fields.numbers_if(1)?;
    Some(Message::Position(STAMP, numbers[0]))
}

// The message of this kind with a single number that fits two bytes.
#[tactic(auto, unfolding(crate::specs::Lines::nothing, crate::specs::Lines::fits, crate::specs::Lines::number_by))]
fn sized(kind: u8, fields: Fields) -> Option<Message>
    ensures { unwrap_or result nothing ≡ whole fields (number_by kind fields) }
{
    let numbers = fields.numbers_if(1)?;
    let n = u16::try_from(numbers[0]).ok()?;
    Some(Message::Sized(kind, n))
}

// The message of a letter, of whether a 2 stands behind it, and of the fields.
#[tactic(auto, unfolding(crate::specs::Lines::nothing, crate::specs::Lines::number_by, crate::specs::Lines::of_number, crate::specs::Lines::sized_of, crate::specs::Lines::sign_of, crate::specs::Lines::said))]
fn message_of(letter: u8, two: bool, fields: Fields) -> Option<Message>
    ensures { unwrap_or result nothing ≡ said (sign_of two letter) fields }
{
    match (letter, two) {
        (b'O', false) => opening(fields),
        (b'Q', false) => quote(fields),
        (b'P', false) => pair(PAST, fields),
        (b'B', false) => pair(PAIR, fields),
        (b'E', false) => bare(UNPAIR, fields),
        (b'S', false) => stamp(fields),
        (b'L', false) => sized(LOOK, fields),
        (b'W', false) => sized(WATCH, fields),
        (b'U', false) => sized(UNWATCH, fields),
        (b'W', true) => sized(WATCH_TWO, fields),
        (b'U', true) => sized(UNWATCH_TWO, fields),
        _ => None,
    }
}

// Whether a 2 stands behind the letter of a line.
#[tactic(auto, unfolding(crate::specs::Lines::marked))]
fn marked(line: &[u8]) -> bool
    ensures { result ≡ marked line.now }
{
    line.get(1) == Some(&b'2')
}

// Reads a line, without its newline.
pub fn read_line(line: &[u8]) -> Parsed
    ensures { result ≡ said_by line.now }
{
    let Some(letter) = line.first() else {
        return Parsed {
            message: Message::Refused(Refusal::UnknownKind),
            numbers: [0; 6],
        };
    };
    let two = marked(line);
    let fields = fields_from(line, 1 + usize::from(two), b' ');
    let numbers = fields.numbers;
    let message = message_of(*letter, two, fields);
    Parsed {
        message: message.unwrap_or(Message::Refused(Refusal::UnknownKind)),
        numbers,
    }
}

// Writes the frame of a line over the front of the output, and tells how many bytes it has: 1 for a line that says no message, then 13.
pub fn write_line(line: &[u8], out: &mut [u8]) -> Result<usize, Refusal>
    ensures { Wrote (said_by line.now).message (said_by line.now).numbers
        out.old result out.new }
{
    let Parsed { message, numbers } = read_line(line);
    frame_writer::write(message, numbers, out)
}
