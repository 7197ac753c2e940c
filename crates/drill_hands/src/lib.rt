// A hand of the drill read from the frames of a file, and the line that the drill's outcome prints.
#![tactic(auto)]

ghost use Rattle.std.specs.Prelude.{◌≡◌, ◌≤◌, length};
ghost use Rattle.text.specs.Text.{Laid};
ghost use Rattle.drill_call.specs.Drills.{saying, yes, no, refused};
ghost use Rattle.frames.specs.Frames.{saying as said};
ghost use Rattle.drill_hands.specs.Files.{no_hand, entered, with_quote, number_in, columns_in, refusal_of, count_of, handed, hand_in, files_drilled, asked_by, line_of};
ghost use Rattle.line_fields.specs.Fields.{no_field, fields_from};

use drill_call::{Hand, Rules};
use frames::Message;
use refusals::Refusal;

// Why a file's hand cannot be read, and the hand that stood before that place.
#[derive(Clone, Copy)]
pub struct Unread {
    pub refusal: Refusal,
    pub hand: Hand,
}

impl From<Unread> for Refusal {
    ghost from_gives = { λ u r. r ≡ u.refusal };

    // The refusal alone.
    fn from(unread: Unread) -> Refusal {
        unread.refusal
    }
}

// An empty hand.
fn none() -> Hand
    ensures { result ≡ no_hand }
{
    Hand {
        count: 0,
        columns: [0; 4],
        cells: [0; 24],
    }
}

// The cells with a quote's six from a place on.
fn entered(cells: [u32; 24], at: usize, quote: [u32; 6]) -> [u32; 24]
    requires { at ≤ 18 }
    ensures { result ≡ entered cells at quote 6 }
{
    let mut after = cells;
    after[at..at + 6].copy_from_slice(&quote);
    after
}

// The hand with one quote more behind the others; the fifth and those behind it are counted as one, and not held.
fn with_quote(hand: Hand, count: u32, quote: [u32; 6]) -> Hand
    ensures { result ≡ with_quote hand count quote }
{
    let held = hand.count;
    if 4 <= held {
        return Hand { count: 5, ..hand };
    }
    let at = held as usize;
    let mut columns = hand.columns;
    columns[at] = count;
    Hand {
        count: held + 1,
        columns,
        cells: entered(hand.cells, at * 6, quote),
    }
}

// How many columns a quote has; if a message is no quote, why it may not stand in a hand's file.
#[tactic(auto, unfolding(crate::specs::Files::number_in, crate::specs::Files::columns_in, frames::specs::Frames::saying))]
fn columns_in(message: Message) -> Result<u32, Refusal>
    ensures refusal { refusal_of result ≡ number_in (said message) }
    ensures columns { count_of result ≡ columns_in (said message) }
{
    match message {
        Message::Quote(k) => Ok(u32::from(k)),
        Message::Refused(refusal) => Err(refusal),
        _ => Err(Refusal::OutOfPlace),
    }
}

// The hand that a file of quote frames holds.
pub fn read_hand(file: &[u8]) -> Result<Hand, Unread>
    ensures { handed result ≡ hand_in file.now }
{
    let mut hand = none();
    let mut place = 0;
    while place < file.len() {
        let read = frames::read_at(file, place);
        let count = match columns_in(read.message) {
            Ok(count) => count,
            Err(refusal) => return Err(Unread { refusal, hand }),
        };
        hand = with_quote(hand, count, read.columns);
        place = read.next;
    }
    Ok(hand)
}

// The drill with the hands that two files hold: the refusals of the first file, then those of the second, then the drill's own.
pub fn drill_files(rules: Rules, first: &[u8], second: &[u8]) -> Result<Option<u32>, Refusal>
    ensures { saying result ≡ files_drilled rules first.now second.now }
{
    let mine = read_hand(first)?;
    let theirs = read_hand(second)?;
    drill_call::drill(rules, mine, theirs)
}

// The rules that a line of four numbers says, a space before each: d, N, directions and n.
pub fn rules_in(line: &[u8]) -> Option<Rules>
    ensures { result ≡ asked_by (fields_from 32 no_field line.now) }
{
    let numbers = line_fields::fields_from(line, 0, b' ').numbers_if(4)?;
    Some(Rules {
        dimensions: numbers[0],
        capacity: numbers[1],
        directions: numbers[2],
        n: numbers[3],
    })
}

// Lays the line of a yes at the start of the text, and returns how many bytes.
fn put_yes(place: u32, text: &mut [u8]) -> usize
    requires { 16 ≤ length text.old }
    ensures { Laid (line_of (yes place)) text.old result text.new }
{
    text[0] = b'y';
    let used = text::put_line2(b'e', b's', &[place], &mut text[1..]);
    used + 1
}

// Lays the line of a no at the start of the text, and returns how many bytes.
#[tactic(auto, unfolding(crate::specs::Files::line_of))]
fn put_no(text: &mut [u8]) -> usize
    requires { 16 ≤ length text.old }
    ensures { Laid (line_of no) text.old result text.new }
{
    text::put_line2(b'n', b'o', &[], text)
}

// Lays the line of a refusal at the start of the text, and returns how many bytes.
#[tactic(auto, unfolding(crate::specs::Files::line_of))]
fn put_refusal(number: u32, text: &mut [u8]) -> usize
    requires { 16 ≤ length text.old }
    ensures { Laid (line_of (refused number)) text.old result text.new }
{
    text::put_line(b'R', &[number], text)
}

// Lays the line of an outcome at the start of the text, and returns how many bytes.
pub fn put_outcome(outcome: Result<Option<u32>, Refusal>, text: &mut [u8; 16]) -> usize
    ensures { Laid (line_of (saying outcome)) text.old result text.new }
{
    match outcome {
        Ok(Some(place)) => put_yes(place, &mut text[..]),
        Ok(None) => put_no(&mut text[..]),
        Err(refusal) => put_refusal(refusal.number(), &mut text[..]),
    }
}
