// The player: reads the frame at a place, judges its place on the tape, makes its call, and lays its lines.
ghost use Rattle.lent_tables.specs.Lent.{lent_mut, SameLoan};
ghost use Rattle.std.specs.Prelude.{◌≡◌, ◌≤◌, length};
ghost use Rattle.call_quoting.specs.Known.{Known};
ghost use Rattle.tape_model.specs.Play.{book_play};
ghost use Rattle.line_answers.specs.Turns.{text_bytes, player};
ghost use Rattle.tape.specs.Steps.{Stepped, StepMade};

use crate::{CHANGE_BYTES, SlidStep, TEXT_BYTES};
use head::Head;
use lent_tables::LentTablesMut;
use line_answers::{Step, step_of};
use tape_asking::wish_at;
use tape_turns::make;

// Plays the frame at a place of a tape on tables of which this is known, into a text that has room for the lines of any frame.
pub fn play_known(
    reachable: bool,
    tape: &[u8],
    place: usize,
    head: Head,
    tables: &mut LentTablesMut<'_>,
    watches: [u64; 8],
    bytes: &mut [u8; CHANGE_BYTES],
    text: &mut [u8],
) -> SlidStep
    requires text_bytes_in_bounds { text_bytes ≤ length text.old }
    requires known { Known reachable head (lent_mut tables.old)
        watches }
    ensures same_loan { SameLoan tables.old tables.new }
    ensures made { StepMade reachable (book_play tape.now place
        (player head (lent_mut tables.old) watches bytes.old)) text.old result
        (lent_mut tables.new)
        bytes.new text.new }
{
    let wish = wish_at(tape, place, head);
    let made = make(
        reachable,
        wish.wanted,
        wish.columns,
        head,
        tables,
        watches,
        bytes,
        text,
    );
    SlidStep {
        step: step_of(place, wish.next, made.turn),
        by: made.by,
    }
}

// Plays the frame at a place of a tape, on any book: its lines are laid at the start of the text.
pub fn play(
    tape: &[u8],
    place: usize,
    head: Head,
    tables: &mut LentTablesMut<'_>,
    watches: [u64; 8],
    bytes: &mut [u8; CHANGE_BYTES],
    text: &mut [u8; TEXT_BYTES],
) -> Step
    ensures same_loan { SameLoan tables.old tables.new }
    ensures made { Stepped tape.now place
        (player head (lent_mut tables.old) watches bytes.old) text.old result
        (lent_mut tables.new)
        bytes.new text.new }
{
    let played = play_known(false, tape, place, head, tables, watches, bytes, text);
    played.step
}
