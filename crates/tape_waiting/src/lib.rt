// Whether the frame at a place can be played before more of the tape has come.
#![tactic(auto)]

ghost use Rattle.std.specs.Prelude.{◌≡◌, ◌&&◌, ◌||◌, not, ltb, eqb, length, get_or};
ghost use Rattle.frame_kinds.specs.Kinds.{look_kind};
ghost use Rattle.tape_model.specs.Streams.{ready, settled};

use frame_kinds::{LOOK, MAX_COLUMNS, body_length, known_length};

// Whether a whole frame, or an unknown kind, stands at a place of what has come of a tape.
fn ready(tape: &[u8], place: usize) -> bool
    ensures { result ≡ ready tape.now place }
{
    let Some(kind) = tape.get(place) else {
        return false;
    };
    match known_length(*kind) {
        Some(body) => usize::from(body) < tape.len() - place,
        None => true,
    }
}

// Whether it is known what follows a quote: a byte has come behind it, and if it is a look's kind the whole look.
fn follower_known(tape: &[u8], next: usize) -> bool
    ensures { result ≡ (ltb next (length tape.now) && (not (eqb (get_or tape.now next 0) look_kind) || ready tape.now next)) }
{
    match tape.get(next) {
        Some(&LOOK) => ready(tape, next),
        Some(_) => true,
        None => false,
    }
}

// Whether the frame at a place is ready, and of a quote it is known what follows.
pub fn settled(tape: &[u8], place: usize) -> bool
    ensures { result ≡ settled tape.now place }
{
    if !ready(tape, place) {
        return false;
    }
    let kind = tape[place];
    match kind {
        1..=MAX_COLUMNS => follower_known(tape, place + 1 + usize::from(body_length(kind))),
        _ => true,
    }
}
