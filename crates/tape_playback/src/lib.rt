// Where a player of a tape stands: one step played from there, on a book that calls left, whose rows slide through tables of twice the
// places that it needs.
#![tactic(auto)]

ghost use Rattle.std.specs.Prelude.{true, ◌+◌, ◌≤◌, length};
ghost use Rattle.model.specs.Calls.{Reached};
ghost use Rattle.model.specs.Promises.{tables, world};
ghost use Rattle.call_quoting.specs.Known.{Known};
ghost use Rattle.line_answers.specs.Turns.{player};
ghost use Rattle.tape.specs.Steps.{StepMade};
ghost use Rattle.tape_steps.specs.Stepping.{play_step};
ghost use Rattle.table_starts.specs.Starts.{Long, Within, onward};
ghost use Rattle.tape_both.specs.Tried.{step_bytes};
ghost use Rattle.tape_playback.specs.Played.{StepPlayed};

use head::Head;
use lent_tables::LentTablesMut;
use table_starts::{Start, slid};
use tape::SlidStep;
use tape_steps::play_step;

// Where a player of a tape stands: the head and the watches of the book, where its rows start, the place of the next frame and the end of
// what has come of the tape, how many bytes of text are gathered, whether the input has ended, and whether the tape is over.
#[derive(Clone, Copy)]
pub struct Playback {
    pub head: Head,
    pub watches: [u64; 8],
    pub start: Start,
    pub place: usize,
    pub end: usize,
    pub used: usize,
    pub ended: bool,
    pub over: bool,
}

// Plays the frame at which a player stands on the tables from where its rows start on, which are lent one by one.
fn step_rows(
    playback: Playback,
    tape: &[u8],
    columns: &mut [u32],
    positions: &mut [u32],
    lower_ends: &mut [u32],
    upper_ends: &mut [u32],
    bytes: &mut [u8; tape::CHANGE_BYTES],
    text: &mut [u8],
) -> SlidStep
    requires step_bytes_in_bounds { step_bytes ≤ length text.old }
    requires known { Known true playback.head (tables columns.old positions.old lower_ends.old upper_ends.old) playback.watches }
    ensures { StepMade true (play_step tape.now playback.place
        (player playback.head (tables columns.old positions.old lower_ends.old upper_ends.old) playback.watches bytes.old)) text.old result
        (tables columns.new positions.new lower_ends.new upper_ends.new) bytes.new text.new }
{
    let mut tables = LentTablesMut {
        columns,
        positions,
        lower_ends,
        upper_ends,
    };
    play_step(
        tape,
        playback.place,
        playback.head,
        &mut tables,
        playback.watches,
        bytes,
        text,
    )
}

// Plays the frame at which a player stands, a quote's with the look's directly behind it if one call takes both. The tables come one by one: the
// borrow checker does not cover a call that is lent parts of several slices of one struct.
pub fn play_next(
    playback: Playback,
    tape: &[u8],
    columns: &mut [u32],
    positions: &mut [u32],
    lower_ends: &mut [u32],
    upper_ends: &mut [u32],
    bytes: &mut [u8; tape::CHANGE_BYTES],
    text: &mut [u8],
) -> Playback
    requires step_bytes_in_bounds { (playback.used + step_bytes ≤ length text.old) × (playback.place ≤ length tape.now) }
    requires long { Long (tables columns.old positions.old lower_ends.old upper_ends.old) }
    requires within { Within 1023 playback.start }
    requires reached { Reached (world playback.head (onward playback.start
        (tables columns.old positions.old lower_ends.old upper_ends.old)) playback.watches) }
    ensures { StepPlayed tape.now playback
        (tables columns.old positions.old lower_ends.old upper_ends.old)
        bytes.old text.old result
        (tables columns.new positions.new lower_ends.new upper_ends.new)
        bytes.new text.new }
{
    let start = playback.start;
    let used = playback.used;
    let played = step_rows(
        playback,
        tape,
        &mut columns[start.cell..],
        &mut positions[start.row..],
        &mut lower_ends[start.row..],
        &mut upper_ends[start.row..],
        bytes,
        &mut text[used..],
    );
    let step = played.step;
    let turn = step.turn;
    // A field that is an array goes into a literal by a variable: the borrow checker does not cover it straight.
    let watches = turn.watches;
    Playback {
        head: turn.head,
        watches,
        start: slid(start, played.by, turn.head),
        place: step.next,
        used: used + turn.count,
        over: step.over,
        ..playback
    }
}
