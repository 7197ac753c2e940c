// A day's quote frames gathered into a table of columns, and the line of its sheet (02, 10/13).
#![tactic(auto)]

ghost use Rattle.std.specs.Prelude.{◌≡◌, ◌+◌, ◌*◌, ◌≤◌, length};
ghost use Rattle.refusals.specs.Refusals.{number_of};
ghost use Rattle.text.specs.Text.{Laid};
ghost use Rattle.day_skyline.specs.Sheet.{sheet_count};
ghost use Rattle.day_frames.specs.Gather.{state_of, none, over_with, with_quote, after_message, stored, Stepped, Gathers, early_answer, line_of, day_line};

use day_skyline::{LONGEST_DAY, sheet};
use frames::{Message, read_at};
use head::Head;
use refusals::Refusal;
use text::put_line;

// Where the gathering stands: the place on the tape, how many quotes were taken, whether one had another number of columns, and once it
// is over how it ended.
#[derive(Clone, Copy)]
pub struct Gathered {
    pub place: usize,
    pub count: u32,
    pub mixed: bool,
    pub end: Option<Result<(), Refusal>>,
}

impl Gathered {
    // At first.
    fn none() -> Gathered
        ensures { state_of result ≡ none }
    {
        Gathered {
            place: 0,
            count: 0,
            mixed: false,
            end: None,
        }
    }

    // It is over, and ended so.
    #[tactic(auto, unfolding(crate::specs::Gather::over_with))]
    fn over_with(self, end: Result<(), Refusal>) -> Gathered
        ensures { state_of result ≡ over_with (number_of end) (state_of self) }
    {
        Gathered {
            end: Some(end),
            ..self
        }
    }

    // With one more quote, of so many columns; behind the longest day and one quote it is over.
    #[tactic(auto, unfolding(crate::specs::Gather::with_quote))]
    fn with_quote(self, d: u32, columns: u8, next: usize) -> Gathered
        requires few { self.count ≤ 4096 }
        requires open { self.end ≡ None }
        ensures { state_of result ≡ with_quote d columns next (state_of self) }
    {
        let count = self.count + 1;
        Gathered {
            place: next,
            count,
            mixed: self.mixed | (u32::from(columns) != d),
            end: if LONGEST_DAY < count {
                Some(Ok(()))
            } else {
                None
            },
        }
    }

    // After a message, with the place behind its frame: 7 if it is no quote.
    fn after(self, d: u32, message: Message, next: usize) -> Gathered
        requires few { self.count ≤ 4096 }
        requires open { self.end ≡ None }
        ensures { state_of result ≡ after_message d message next (state_of self) }
    {
        match message {
            Message::Quote(columns) => self.with_quote(d, columns, next),
            Message::EndOfTape => self.over_with(Ok(())),
            Message::Refused(refusal) => self.over_with(Err(refusal)),
            _ => self.over_with(Err(Refusal::OutOfPlace)),
        }
    }
}

// Stores the first d columns of a quote from a place on, if there is room for them.
#[tactic(auto, unfolding(crate::specs::Gather::stored))]
fn store(columns: [u32; 6], d: usize, at: usize, cells: &mut [u32])
    ensures { cells.new ≡ stored d columns at cells.old }
{
    if d <= columns.len() && at <= cells.len() && d <= cells.len() - at {
        cells[at..at + d].copy_from_slice(&columns[..d]);
    }
}

// Takes the frame at the place, unless it is over: a quote's columns behind those of the others.
fn step(d: u32, tape: &[u8], gathered: Gathered, cells: &mut [u32]) -> Gathered
    requires { gathered.count ≤ 4096 }
    ensures { Stepped d tape.now (state_of gathered) cells.old (state_of result) cells.new }
{
    if gathered.end.is_some() {
        return gathered;
    }
    let read = read_at(tape, gathered.place);
    let after = gathered.after(d, read.message, read.next);
    let at = (gathered.count as usize) * (d as usize);
    store(read.columns, d as usize, at, cells);
    after
}

// Takes the frames of a day, up to the first that is no quote or cannot be read, at most one more than the longest day has.
fn gather(d: u32, tape: &[u8], cells: &mut [u32]) -> Gathered
    ensures { Gathers d tape.now cells.old (state_of result) cells.new }
{
    let mut gathered = Gathered::none();
    for _i in 0..=LONGEST_DAY {
        gathered = step(d, tape, gathered, cells);
    }
    gathered
}

// The answer of a day before its sheet: 1, 2 or 7 of its frames, then 3, then 4.
#[tactic(auto, using(day_skyline::proofs::Answering::settled, refusals::proofs::Numbers::number_above), unfolding(crate::specs::Gather::early_answer, refusals::specs::Refusals::first_of))]
fn judge(d: u32, directions: u32, gathered: Gathered) -> Result<(), Refusal>
    ensures { number_of result ≡ early_answer d directions (state_of gathered) }
{
    gathered.end.unwrap_or(Ok(()))?;
    if !Head::fresh(d, 1, directions).settings_hold() {
        return Err(Refusal::Settings);
    }
    if gathered.mixed {
        return Err(Refusal::ColumnCount);
    }
    Ok(())
}

// Finds the sheet of the day that these frames say and writes its positions into out, or hands back its refusal.
fn find(
    d: u32,
    directions: u32,
    tape: &[u8],
    cells: &mut [u32],
    out: &mut [u32],
) -> Result<usize, Refusal>
    ensures said { line_of result out.new ≡ day_line d directions tape.now cells.old out.old }
    ensures fits { sheet_count result ≤ length out.new }
{
    let gathered = gather(d, tape, cells);
    judge(d, directions, gathered)?;
    sheet(d, directions, gathered.count, cells, out)
}

// Lays the line of the day that these frames say at the start of the text: its sheet, or its refusal. Returns how many bytes.
pub fn day_line(
    d: u32,
    directions: u32,
    tape: &[u8],
    cells: &mut [u32],
    out: &mut [u32],
    text: &mut [u8],
) -> usize
    requires in_bounds { 13 ≤ length text.old }
    requires out_in_bounds { 2 + 11 * length out.old ≤ length text.old }
    ensures { Laid (day_line d directions tape.now cells.old out.old)
        text.old result text.new }
{
    match find(d, directions, tape, cells, out) {
        Ok(count) => put_line(b'D', &out[..count], text),
        Err(refusal) => put_line(b'R', &[refusal.number()], text),
    }
}
