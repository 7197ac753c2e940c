// A writer's lines: each is taken as the frame of the message that it says, behind the bytes that are gathered; these are written out, and
// the input is read on behind a line that is begun. What runs of these calls hand on is what is written of the input (specs/Runs.antt).
#![tactic(auto)]

ghost use Rattle.std.specs.Prelude.{◌≡◌, ◌+◌, ◌≤◌, true, false, length, take, drop};
ghost use Rattle.std.specs.Io.KnownBytes.{Appends, Consumes};
ghost use Rattle.line_writer.specs.Written.{LineLaid, LineTaken, Flushed, Refilled, stop_at, comes, kept, pending};

use line_fields::line_end;
use std::io::{Read, Write};
use streams::Outlet;

// How many bytes a line has that is longer than any that says a message.
const TOO_LONG: usize = 68;

// Where a writer stands: how many lines it has taken, the place of the next one and the end of what has come of the input, how many bytes
// of the tape are gathered, whether the last line said no message, whether the input has ended, and whether all is over. Each flag says a
// thing of its own, of which the runs of `writer_writes` speak.
#[derive(Drop)]
pub struct Writer {
    pub lines: u64,
    pub place: usize,
    pub end: usize,
    pub used: usize,
    pub unsaid: bool,
    pub ended: bool,
    pub over: bool,
}

// Lays the frame of a line over the front of the output, which has room for any, and answers how many bytes it has.
fn lay_line(line: &[u8], out: &mut [u8]) -> usize
    requires { 25 ≤ length out.old }
    ensures { LineLaid line.now out.old result out.new }
{
    if TOO_LONG <= line.len() {
        return 0;
    }
    line_notation::write_line(line, out).unwrap_or(0)
}

// Takes the line at which a writer stands in what has come of the input, which ends there: it has come whole, or is the last.
pub fn take_line(writer: Writer, stop: usize, text: &[u8], out: &mut [u8]) -> Writer
    requires used_in_bounds { (writer.used + 25 ≤ length out.old) × (writer.place ≤ length text.now) }
    requires stop_value { (stop ≡ stop_at text.now writer.place) × (comes text.now writer ≡ true) }
    ensures { LineTaken text.now writer out.old result out.new }
{
    let count = lay_line(&text[writer.place..stop], &mut out[writer.used..]);
    Writer {
        lines: writer.lines.wrapping_add(1),
        place: text.len().min(stop + 1),
        used: writer.used + count,
        unsaid: count == 0,
        ..writer
    }
}

// Writes out the gathered bytes; where that fails all is over.
pub fn flush<W: Write, E: Write>(writer: Writer, out: &[u8], outlet: &mut Outlet<W, E>) -> Writer
    requires { writer.used ≤ length out.now }
    ensures flushed { Flushed writer result }
    ensures written { result.over ≡ false → Appends (W.contents outlet.old.output)
        (W.contents outlet.new.output) (take writer.used out.now) }
{
    let is_out = streams::put_out(outlet, &out[..writer.used], b"tape_writer: standard output");
    Writer {
        used: 0,
        over: writer.over | !is_out,
        ..writer
    }
}

// Reads on behind a line that is begun, which is moved to the front of what has come of the input; nothing once the input has ended, or
// where a line has come whole.
pub fn refill<R: Read, E: Write>(
    writer: Writer,
    text: &mut [u8],
    input: &mut R,
    errors: &mut E,
) -> Writer
    requires place_le_end { (writer.place ≤ writer.end) × (writer.end ≤ length text.old) }
    requires in_bounds { 69 ≤ length text.old }
    ensures refilled { Refilled writer text.old result text.new }
    ensures given { Consumes (R.remaining input.old) (R.remaining input.new)
        (drop (length (kept writer text.old)) (pending result text.new)) }
{
    let place = writer.place;
    let end = writer.end;
    if writer.ended | (line_end(&text[..end], place) < end) {
        return writer;
    }
    // Of a begun line is kept what shows that it is too long.
    let stop = end.min(place + TOO_LONG);
    streams::to_front(text, place, stop);
    let rest = stop - place;
    let came = streams::read_in(
        input,
        &mut text[rest..],
        errors,
        b"tape_writer: standard input",
    );
    Writer {
        place: 0,
        end: rest + came,
        ended: came == 0,
        ..writer
    }
}
