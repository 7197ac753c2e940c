// The tape writer: turns lines of the notation on standard input into a tape on standard output. A line that says no message is named on
// standard error with its number, and nothing is written for it.
#![tactic(auto)]

ghost use Rattle.std.specs.Prelude.{◌≡◌, true, ◌+◌, ◌≤◌, length};
ghost use Rattle.line_writer.specs.Written.{stop_at, comes};

use line_fields::line_end;
use line_writer::{Writer, flush, refill, take_line};
use std::io::{Read, Write};
use streams::Outlet;

// How many bytes the longest frame has.
const LONGEST_FRAME: usize = 25;

// Names the line that was taken last, if it says no message.
fn name_unsaid<E: Write>(writer: &Writer, errors: &mut E) {
    if writer.unsaid {
        let number = writer.lines;
        let _ = writeln!(errors, "tape_writer: line {number} says no message");
    }
}

// Writes out what is gathered if there is no room behind it for the longest frame.
fn with_room<W: Write, E: Write>(writer: Writer, out: &[u8], outlet: &mut Outlet<W, E>) -> Writer
    requires { (writer.used ≤ length out.now) × (25 ≤ length out.now) }
    ensures used_in_bounds { result.used + 25 ≤ length out.now }
    ensures place_value { (result.place ≡ writer.place) × (result.end ≡ writer.end) × (result.ended ≡ writer.ended) }
{
    if LONGEST_FRAME <= out.len() - writer.used {
        return writer;
    }
    flush(writer, out, outlet)
}

// Takes the line at which the writer stands, which ends there, and names it if it says no message.
fn write_on<W: Write, E: Write>(
    writer: Writer,
    stop: usize,
    text: &[u8],
    out: &mut [u8],
    outlet: &mut Outlet<W, E>,
) -> Writer
    requires used_in_bounds { (writer.used ≤ length out.old) × (25 ≤ length out.old) × (writer.place ≤ length text.now) }
    requires stop_value { (stop ≡ stop_at text.now writer.place) × (comes text.now writer ≡ true) }
    ensures used_in_bounds_2 { (result.used ≤ length out.old) × (result.place ≤ length text.now) }
    ensures end_value { result.end ≡ writer.end }
{
    let now = take_line(with_room(writer, out, outlet), stop, text, out);
    name_unsaid(&now, &mut outlet.errors);
    now
}

// Takes the next line if it has come whole or is the last; else writes out what is gathered, and reads on, or ends with the input.
fn turn<R: Read, W: Write, E: Write>(
    writer: Writer,
    text: &mut [u8],
    out: &mut [u8],
    input: &mut R,
    outlet: &mut Outlet<W, E>,
) -> Writer
    requires place_le_end { (writer.place ≤ writer.end) × (writer.end ≤ length text.old) × (69 ≤ length text.old) }
    requires used_in_bounds { (writer.used ≤ length out.old) × (25 ≤ length out.old) }
    ensures place_le_end_2 { (result.place ≤ result.end) × (result.end ≤ length text.old) }
    ensures used_in_bounds_2 { result.used ≤ length out.old }
{
    let end = writer.end;
    let stop = line_end(&text[..end], writer.place);
    if (stop < end) | (writer.ended & (writer.place < end)) {
        return write_on(writer, stop, &text[..end], out, outlet);
    }
    let now = flush(writer, out, outlet);
    if now.ended | now.over {
        return Writer { over: true, ..now };
    }
    refill(now, text, input, &mut outlet.errors)
}

// How many bytes of lines are kept at a time, and how many of a tape are gathered before they are written out.
const PIECE: usize = 65536;

fn main(rt: HostRuntime) {
    let mut text = [0u8; PIECE];
    let mut out = [0u8; PIECE];
    let mut writer = Writer {
        lines: 0,
        place: 0,
        end: 0,
        used: 0,
        unsaid: false,
        ended: false,
        over: false,
    };
    let mut input = rt.stdin();
    let mut outlet = Outlet {
        output: rt.stdout(),
        errors: rt.stderr(),
    };
    // A `for`, and not a `while`: the input may go on for ever, and a loop without an end is no part of a program here.
    for _ in 0..u64::MAX {
        if writer.over {
            break;
        }
        writer = turn(writer, &mut text, &mut out, &mut input, &mut outlet);
    }
    flush(writer, &out, &mut outlet);
}
