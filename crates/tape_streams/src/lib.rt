// A printer's input and output: the lines that are gathered are written out, and the tape is read on behind what has come of it.
#![tactic(auto)]

ghost use Rattle.std.specs.Prelude.{◌≡◌, ◌≤◌, false, length, take, drop};
ghost use Rattle.std.specs.Io.KnownBytes.{Appends, Consumes};
ghost use Rattle.tape_streams.specs.Streams.{pending, Flushed, Refilled};

use std::io::{Read, Write};
use streams::Outlet;
use tape_playback::Playback;

// The lines that are gathered, so many bytes.
fn gathered(used: usize, text: &[u8]) -> &[u8]
    requires { used ≤ length text.now }
    ensures { result.now ≡ take used text.now }
{
    &text[..used]
}

// Writes out the gathered lines; where that fails the tape is over.
pub fn flush<W: Write, E: Write>(
    playback: Playback,
    text: &[u8],
    outlet: &mut Outlet<W, E>,
) -> Playback
    requires { playback.used ≤ length text.now }
    ensures flushed { Flushed playback result }
    ensures written { result.over ≡ false → Appends (W.contents outlet.old.output)
        (W.contents outlet.new.output) (take playback.used text.now) }
{
    let used = playback.used;
    let mut now = playback;
    now.used = 0;
    if !streams::put_out(
        outlet,
        gathered(used, text),
        b"tape_printer: standard output",
    ) {
        now.over = true;
    }
    now
}

// Reads on behind a frame that is not settled, which is moved to the front of what has come of the tape; nothing once the input has ended or
// the tape is over.
pub fn refill<R: Read, E: Write>(
    playback: Playback,
    tape: &mut [u8],
    input: &mut R,
    errors: &mut E,
) -> Playback
    requires place_le_end { (playback.place ≤ playback.end) × (playback.end ≤ length tape.old) }
    requires in_bounds { 28 ≤ length tape.old }
    ensures refilled { Refilled playback tape.old result tape.new }
    ensures given { Consumes (R.remaining input.old) (R.remaining input.new)
        (drop (length (pending playback tape.old)) (pending result tape.new)) }
{
    let mut now = playback;
    let end = now.end;
    if now.over | now.ended | tape_waiting::settled(&tape[..end], now.place) {
        return now;
    }
    let rest = end - now.place;
    streams::to_front(tape, now.place, end);
    let came = streams::read_in(
        input,
        &mut tape[rest..],
        errors,
        b"tape_printer: standard input",
    );
    now.place = 0;
    now.end = rest + came;
    now.ended = came == 0;
    now
}
