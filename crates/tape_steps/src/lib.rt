// A step along a tape: a quote's frame and a whole look's directly behind it by one call, or one frame by its own.
#![tactic(auto)]

ghost use Rattle.lent_tables.specs.Lent.{lent_mut, SameLoan};
ghost use Rattle.std.specs.Prelude.{◌≡◌, true, ◌≤◌, length};
ghost use Rattle.call_quoting.specs.Known.{Known};
ghost use Rattle.line_answers.specs.Turns.{player};
ghost use Rattle.tape.specs.Steps.{StepMade};
ghost use Rattle.tape_both.specs.Tried.{step_bytes};
ghost use Rattle.tape_steps.specs.Stepping.{look_behind, none_at, both_at, play_step};

use frame_kinds::{LOOK, MAX_COLUMNS};
use frames::read_at;
use head::{Head, PLACES};
use lent_tables::LentTablesMut;
use line_answers::step_of;
use octets::two_at;
use tape::{SlidStep, play_known};
use tape_both::make_both;

// How many bytes the line of a look has room in: as that of a change, with n and all positions.
pub const LOOK_LINE: usize = 3 + 11 * (1 + PLACES);

// How many bytes the lines of a step have room in: those of any frame, and a look's line behind them.
pub const STEP_BYTES: usize = tape::TEXT_BYTES + LOOK_LINE;

// What stands at a place of a tape: whether it is a quote in its place with a whole look directly behind it, how many columns the quote has,
// the columns with zeros behind them, n, and the place behind the look.
#[derive(Clone, Copy)]
struct BothAt {
    found: bool,
    kind: u8,
    columns: [u32; 6],
    n: u16,
    next: usize,
}

// Whether a quote's frame stands at a place of a tape, and a whole look's directly behind it.
fn look_behind(tape: &[u8], place: usize) -> bool
    ensures { result ≡ look_behind tape.now place }
{
    if tape.len() <= place {
        return false;
    }
    let kind = tape[place];
    if (kind == 0) | (MAX_COLUMNS < kind) {
        return false;
    }
    let frame = 1 + 4 * (kind as usize);
    if tape.len() - place < frame + 3 {
        return false;
    }
    tape[place + frame] == LOOK
}

// No quote in its place with a look behind it.
fn none_at(place: usize) -> BothAt
    ensures { result ≡ none_at place }
{
    BothAt {
        found: false,
        kind: 0,
        columns: [0; 6],
        n: 0,
        next: place,
    }
}

// What stands at a place of a tape, for a player with this head: a quote has no place before an accepted opening.
fn both_at(tape: &[u8], place: usize, head: Head) -> BothAt
    ensures { result ≡ both_at tape.now place head }
{
    if !look_behind(tape, place) {
        return none_at(place);
    }
    if !head.settings_hold() {
        return none_at(place);
    }
    let read = read_at(tape, place);
    let look = read.next;
    // A field that is an array goes into a literal by a variable: the borrow checker does not cover it straight.
    let columns = read.columns;
    BothAt {
        found: true,
        kind: tape[place],
        columns,
        n: two_at(tape, look + 1),
        next: look + 3,
    }
}

// Plays the frame at a place of a tape on a reachable book; a quote's and a whole look's directly behind it by one call, if that takes both.
pub fn play_step(
    tape: &[u8],
    place: usize,
    head: Head,
    tables: &mut LentTablesMut<'_>,
    watches: [u64; 8],
    bytes: &mut [u8; tape::CHANGE_BYTES],
    text: &mut [u8],
) -> SlidStep
    requires step_bytes_in_bounds { step_bytes ≤ length text.old }
    requires known { Known true head (lent_mut tables.old) watches }
    ensures same_loan { SameLoan tables.old tables.new }
    ensures made { StepMade true (play_step tape.now place
        (player head (lent_mut tables.old) watches bytes.old)) text.old result
        (lent_mut tables.new)
        bytes.new text.new }
{
    let both = both_at(tape, place, head);
    let tried = make_both(
        both.found,
        both.kind,
        both.columns,
        both.n,
        head,
        tables,
        watches,
        bytes,
        text,
    );
    if tried.taken {
        return SlidStep {
            step: step_of(place, both.next, tried.made.turn),
            by: tried.made.by,
        };
    }
    play_known(true, tape, place, head, tables, watches, bytes, text)
}
