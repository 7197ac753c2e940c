// What has come of a tape, played: step by step, each with its lines behind those that are gathered, on a book that calls left; and what runs of
// a printer hand on (specs/Runs.antt).
#![tactic(auto)]

ghost use Rattle.std.specs.Prelude.{◌-◌, ◌≤◌, ◌||◌, length};
ghost use Rattle.model.specs.Calls.{Reached};
ghost use Rattle.model.specs.Promises.{tables, world};
ghost use Rattle.tape_model.specs.Streams.{settled};
ghost use Rattle.head.specs.Heads.{max_capacity};
ghost use Rattle.table_starts.specs.Starts.{Long, Within, FullOpened, onward, Moved};
ghost use Rattle.tape_pieces.specs.Pieces.{GoesOn, PiecePlayed};

use head::Head;
use lent_tables::LentTablesMut;
use table_starts::{Start, rewind};
use tape_playback::{Playback, play_next};

// Whether a step is played: its lines have room behind those that are gathered, and its frame has come whole, of a quote with what tells whether a
// look follows, or nothing more comes.
fn plays(playback: Playback, tape: &[u8], room: usize) -> bool
    requires { playback.used ≤ room }
    ensures { GoesOn playback.over (room - playback.used)
        (playback.ended || settled tape.now playback.place) result }
{
    if playback.over {
        return false;
    }
    if room - playback.used < tape_steps::STEP_BYTES {
        return false;
    }
    if playback.ended {
        return true;
    }
    tape_waiting::settled(tape, playback.place)
}

// Moves the rows to the front of the tables, which are lent one by one, where they may find no place behind them for one row more.
fn rewind_rows(
    start: Start,
    head: Head,
    columns: &mut [u32],
    positions: &mut [u32],
    lower_ends: &mut [u32],
    upper_ends: &mut [u32],
) -> Start
    requires long { Long (tables columns.old positions.old lower_ends.old upper_ends.old) }
    requires within { Within max_capacity start × FullOpened start head }
    ensures within_2 { Within 1023 result }
    ensures moved { Moved head (onward start (tables columns.old positions.old lower_ends.old upper_ends.old)) (onward result
        (tables columns.new positions.new lower_ends.new upper_ends.new)) }
{
    let mut tables = LentTablesMut {
        columns,
        positions,
        lower_ends,
        upper_ends,
    };
    rewind(start, head, &mut tables)
}

// Plays the frames of this piece of the tape, until one is not settled or its lines may find no room.
pub fn play_piece(
    playback: Playback,
    tape: &[u8],
    columns: &mut [u32],
    positions: &mut [u32],
    lower_ends: &mut [u32],
    upper_ends: &mut [u32],
    bytes: &mut [u8; tape::CHANGE_BYTES],
    text: &mut [u8],
) -> Playback
    requires used_in_bounds { (playback.used ≤ length text.old) × (playback.place ≤ length tape.now) }
    requires long { Long (tables columns.old positions.old lower_ends.old upper_ends.old) }
    requires within { Within 1023 playback.start }
    requires reached { Reached (world playback.head (onward playback.start
        (tables columns.old positions.old lower_ends.old upper_ends.old)) playback.watches) }
    ensures { PiecePlayed tape.now playback
        (tables columns.old positions.old lower_ends.old upper_ends.old)
        bytes.old text.old result
        (tables columns.new positions.new lower_ends.new upper_ends.new)
        bytes.new text.new }
{
    let mut now = playback;
    while plays(now, tape, text.len()) {
        now = play_next(
            now, tape, columns, positions, lower_ends, upper_ends, bytes, text,
        );
        now.start = rewind_rows(
            now.start, now.head, columns, positions, lower_ends, upper_ends,
        );
    }
    now
}
