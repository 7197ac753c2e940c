// The lines of a call of a tape that was made, laid at the start of a lent text, and the step that this makes along the tape.
#![tactic(auto)]

ghost use Rattle.std.specs.Prelude.{◌≡◌, List, ◌++◌, ℕ, ◌+◌, ◌≤◌, eqb, length, take};
ghost use Rattle.head.specs.declared.Head.{Head};
ghost use Rattle.refusals.specs.Refusals.{number, number_of, granted};
ghost use Rattle.model.specs.Rows.{Tables};
ghost use Rattle.model.specs.Changes.{change_room};
ghost use Rattle.model.specs.Calls.{Call};
ghost use Rattle.model.specs.Promises.{Opened, Quoted};
ghost use Rattle.text.specs.Text.{Laid};
ghost use Rattle.line_changes.specs.Printed.{changes_text};
ghost use Rattle.line_answers.specs.Turns.{line_bytes, text_bytes, player, line_of, answer_line, turn_of, made, refused_with, Turned};

use head::{Desk, Head, Reply};
use refusals::Refusal;
use watch_numbers::WatchReply;

// The line of an accepted call: whose it is, its letter and its numbers.
#[derive(Clone, Copy)]
pub struct DeskLine<'a> {
    pub desk: Desk,
    pub letter: u8,
    pub numbers: &'a [u32],
}

impl DeskLine<'_> {
    // Lays the line, and returns how many bytes: desk two's has a 2 behind its letter.
    #[tactic(auto, unfolding(tape_model::specs::Print::desk_line))]
    fn put(&self, text: &mut [u8]) -> usize
        requires { line_bytes (length self.now.numbers.now) ≤ length text.old }
        ensures { Laid (line_of self.now) text.old result text.new }
    {
        match self.desk {
            Desk::One => text::put_line(self.letter, self.numbers, text),
            Desk::Two => text::put_line2(self.letter, b'2', self.numbers, text),
        }
    }
}

// What a call of a tape leaves: its answer, how many bytes of text, and the head and the watches for the next one.
#[derive(Clone, Copy)]
pub struct Turn {
    pub answer: Result<(), Refusal>,
    pub count: usize,
    pub head: Head,
    pub watches: [u64; 8],
}

// The turn of a call with this reply, whose lines have so many bytes.
fn turn_of(reply: Reply, watches: [u64; 8], count: usize) -> Turn
    ensures { result ≡ turn_of reply watches count }
{
    Turn {
        answer: reply.answer,
        count,
        head: reply.head,
        watches,
    }
}

// Lays the line of an accepted call, or that of its refusal, and returns how many bytes.
#[tactic(auto, using(crate::proofs::Turning::accepted_line, crate::proofs::Turning::refused_line))]
pub fn put_answer(answer: Result<(), Refusal>, line: &DeskLine<'_>, text: &mut [u8]) -> usize
    requires { (line_bytes 1 ≤ length text.old) × (line_bytes (length line.now.numbers.now) ≤ length text.old) }
    ensures { Laid (answer_line (number_of answer) (line_of line.now)) text.old result text.new }
{
    match answer {
        Ok(()) => line.put(text),
        Err(refusal) => text::put_line(b'R', &[refusal.number()], text),
    }
}

// Lays the line of a call's answer, then the lines of the changes in the first count bytes, and returns how many bytes.
pub fn put_changed(
    answer: Result<(), Refusal>,
    line: &DeskLine<'_>,
    bytes: &[u8],
    count: usize,
    text: &mut [u8],
) -> usize
    requires numbers_len_bound { (length line.now.numbers.now ≤ 2) × (count ≤ length bytes.now) }
    requires bytes_len_bound { (length bytes.now ≤ change_room) × (text_bytes ≤ length text.old) }
    ensures { Laid (answer_line (number_of answer) (line_of line.now) ++ changes_text (take count bytes.now))
        text.old result text.new }
{
    let at = put_answer(answer, line, text);
    let lines = line_changes::put_changes(bytes, count, &mut text[at..]);
    at + lines
}

// Lays the line of a call with this reply: the turn that this makes.
pub fn put_reply(reply: Reply, watches: [u64; 8], line: &DeskLine<'_>, text: &mut [u8]) -> Turn
    requires { (line_bytes 1 ≤ length text.old) × (line_bytes (length line.now.numbers.now) ≤ length text.old) }
    ensures turn { result ≡ turn_of reply watches result.count }
    ensures laid { Laid (answer_line (number_of reply.answer) (line_of line.now)) text.old result.count text.new }
{
    let count = put_answer(reply.answer, line, text);
    turn_of(reply, watches, count)
}

// Lays the line of a call with this reply, and those of the changes that it wrote: the turn that this makes.
pub fn put_reply_changes(
    reply: Reply,
    watches: [u64; 8],
    line: &DeskLine<'_>,
    bytes: &[u8],
    text: &mut [u8],
) -> Turn
    requires numbers_len_bound { (length line.now.numbers.now ≤ 2) × (reply.count ≤ length bytes.now) }
    requires bytes_len_bound { (length bytes.now ≤ change_room) × (text_bytes ≤ length text.old) }
    ensures turn { result ≡ turn_of reply watches result.count }
    ensures laid { Laid (answer_line (number_of reply.answer) (line_of line.now) ++ changes_text
        (take reply.count bytes.now)) text.old result.count text.new }
{
    let count = put_changed(reply.answer, line, bytes, reply.count, text);
    turn_of(reply, watches, count)
}

// The head after an opening: the fresh one if it was accepted.
#[tactic(auto, unfolding(refusals::specs::Refusals::granted), using(refusals::proofs::Numbers::refused_granted))]
fn opened_head(answer: Result<(), Refusal>, fresh: Head, head: Head) -> Head
    ensures { result ≡ granted (number_of answer) fresh head }
{
    if answer.is_ok() { fresh } else { head }
}

// Lays the line of an opening that was made.
pub fn put_opening(
    head: Head,
    dimensions: u32,
    capacity: u32,
    directions: u32,
    replied: WatchReply,
    text: &mut [u8],
) -> Turn
    requires { text_bytes ≤ length text.old }
    ensures { (t t' : Tables) (ws bytes : List ℕ) → Opened dimensions capacity directions t ws replied.reply
        t' replied.watches → Turned (made (Call.Open dimensions capacity directions) (player head t ws bytes))
        text.old result t' bytes text.new }
{
    let opened = replied.reply;
    let reply = Reply {
        head: opened_head(opened.answer, opened.head, head),
        ..opened
    };
    let line = DeskLine {
        desk: Desk::One,
        letter: b'O',
        numbers: &[dimensions, capacity, directions],
    };
    put_reply(reply, replied.watches, &line, text)
}

// Lays the line of a quote that was made, and those of its changes.
pub fn put_quote(reply: Reply, watches: [u64; 8], bytes: &[u8], text: &mut [u8]) -> Turn
    requires { (reply.count ≤ length bytes.now)
        × ((length bytes.now ≤ change_room) × (text_bytes ≤ length text.old)) }
    ensures { (h : Head) (x : List ℕ) (t t' : Tables) (before : List ℕ) → Quoted h x t watches before reply t'
        bytes.now → Turned (made (Call.Quote x) (player h t watches before)) text.old result t'
        bytes.now text.new }
{
    let line = DeskLine {
        desk: Desk::One,
        letter: b'Q',
        numbers: &[reply.head.newest, reply.head.live],
    };
    put_reply_changes(reply, watches, &line, bytes, text)
}

// Lays the line of what was refused before any call.
pub fn put_refusal(refusal: Refusal, head: Head, watches: [u64; 8], text: &mut [u8]) -> Turn
    requires { text_bytes ≤ length text.old }
    ensures { (t : Tables) (bytes : List ℕ) → Turned
        (refused_with (number refusal) (player head t watches bytes)) text.old result t bytes
        text.new }
{
    Turn {
        answer: Err(refusal),
        count: text::put_line(b'R', &[refusal.number()], text),
        head,
        watches,
    }
}

// What playing a frame hands back: the turn that it made, whose answer is as its line says it (Ok at the end of the tape), whether the tape is over,
// and the place behind the frame.
#[derive(Clone, Copy)]
pub struct Step {
    pub turn: Turn,
    pub over: bool,
    pub next: usize,
}

// The step that a turn makes: the tape is over where nothing could be read, and the place stayed.
pub fn step_of(place: usize, next: usize, turn: Turn) -> Step
    ensures { result ≡ record { turn = turn; over = eqb next place; next = next } }
{
    Step {
        turn,
        over: next == place,
        next,
    }
}
