// Changes in print: the frames of changes turned into lines of text.
#![tactic(auto)]

ghost use Rattle.std.specs.Prelude.{◌≡◌, [], ◌∷◌, ◌+◌, ◌-◌, ◌*◌, ◌≤◌, ◌<◌, MatchOption, length, get_or, take};
ghost use Rattle.octets.specs.Bytes.{number2, number4};
ghost use Rattle.frames.specs.Frames.{message_at, read_at};
ghost use Rattle.text.specs.Text.{Laid};
ghost use Rattle.line_changes.specs.Printed.{letter_of, change_line, changes_text};

use frames::{JOIN, JOIN_TWO, LEAVE, LEAVE_TWO, PAIR_JOIN, PAIR_LEAVE, known_length};
use octets::{four_at, two_at};
use text::{put_line, put_line2};

// The place behind the frame at a place, where one is read there.
#[tactic(auto, using(crate::proofs::Decoding::end_outside, crate::proofs::Decoding::end_unknown, crate::proofs::Decoding::end_cut, crate::proofs::Decoding::end_found))]
fn frame_end(bytes: &[u8], place: usize) -> Option<usize>
    ensures { MatchOption result (place ≡ (read_at bytes.now place).next) (λ next. (place < next) × (next ≡ (read_at bytes.now place).next)) }
{
    let &kind = bytes.get(place)?;
    let next = place + 1 + usize::from(known_length(kind)?);
    if next <= bytes.len() {
        Some(next)
    } else {
        None
    }
}

// The same, by one decision where a change of a desk's watch stands.
#[tactic(auto, using(crate::proofs::Decoding::end_changed))]
fn change_end(bytes: &[u8], place: usize) -> Option<usize>
    ensures { MatchOption result (place ≡ (read_at bytes.now place).next) (λ next. (place < next) × (next ≡ (read_at bytes.now place).next)) }
{
    if place < bytes.len() {
        let kind = bytes[place];
        if LEAVE <= kind && kind <= JOIN_TWO && 7 <= bytes.len() - place {
            return Some(place + 7);
        }
    }
    frame_end(bytes, place)
}

// The n and the position of a change of a desk's watch, whose frame stands at a place.
fn numbers_at(bytes: &[u8], place: usize) -> [u32; 2]
    requires { place + 7 ≤ length bytes.now }
    ensures { result ≡ number2 bytes.now (place + 1) ∷ number4 bytes.now (place + 3) ∷ [] }
{
    [
        u32::from(two_at(bytes, place + 1)),
        four_at(bytes, place + 3),
    ]
}

// The letter of a change's line, by its kind: - for a leave, + for a join.
#[tactic(auto, unfolding(crate::specs::Printed::letter_of))]
fn letter_of(kind: u8) -> u8
    ensures { result ≡ letter_of kind }
{
    match kind {
        LEAVE | LEAVE_TWO | PAIR_LEAVE => b'-',
        _ => b'+',
    }
}

// Lays the line of the frame at a place, and returns how many bytes: none for a frame that is no change. 25 bytes of text suffice for each 7
// of frames.
fn put_change(bytes: &[u8], place: usize, text: &mut [u8]) -> usize
    requires place_bound { place < (read_at bytes.now place).next }
    requires place_bound_2 { 25 * ((read_at bytes.now place).next - place) ≤ 7 * length text.old }
    ensures { Laid (change_line (message_at bytes.now (place + 1) (get_or bytes.now place 0)))
        text.old result text.new }
{
    let kind = bytes[place];
    let letter = letter_of(kind);
    match kind {
        LEAVE | JOIN => put_line(letter, &numbers_at(bytes, place), text),
        LEAVE_TWO | JOIN_TWO => put_line2(letter, b'2', &numbers_at(bytes, place), text),
        PAIR_LEAVE | PAIR_JOIN => put_line2(letter, letter, &[four_at(bytes, place + 1)], text),
        _ => 0,
    }
}

// Lays the lines of the changes whose frames stand in the bytes, and returns how many bytes of text.
fn put_frames(bytes: &[u8], text: &mut [u8]) -> usize
    requires { 25 * length bytes.now ≤ 7 * length text.old }
    ensures { Laid (changes_text bytes.now) text.old result text.new }
{
    let mut at = 0;
    let mut place = 0;
    while let Some(next) = change_end(bytes, place) {
        at += put_change(bytes, place, &mut text[at..]);
        place = next;
    }
    at
}

// Lays the lines of the changes whose frames are the first count bytes, and returns how many bytes of text.
pub fn put_changes(bytes: &[u8], count: usize, text: &mut [u8]) -> usize
    requires count_in_bounds { count ≤ length bytes.now }
    requires count_bound { 25 * count ≤ 7 * length text.old }
    ensures { Laid (changes_text (take count bytes.now)) text.old result text.new }
{
    put_frames(&bytes[..count], text)
}
