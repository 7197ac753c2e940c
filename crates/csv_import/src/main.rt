// The importer: turns a file of comma-separated quotes of D columns on standard input into their frames on standard output. A line that does
// not fit is named on standard error with its number, and nothing is written.
#![tactic(auto)]

ghost use Rattle.std.specs.Prelude.{◌≤◌, length, IfOk};

use csv_frames::NotImported;
use line_fields::{Scanned, read_fields};
use refusals::Refusal;
use std::env::Env;
use std::io::{Read, Write};
use streams::{Outlet, say_failure};

// The largest file.
const FILE: usize = 1048576;

// No line's frame is twice as long as the line, so that the frames of the largest file always fit.
const FRAMES: usize = 2097152;

// The decimal number below 2^32 that a text is, if it is one.
fn number_of(text: &[u8]) -> Option<u32> {
    let Scanned { fields, end } = read_fields(text, 0, b',', true);
    if end != text.len() {
        return None;
    }
    let numbers = fields.numbers_if(1)?;
    Some(numbers[0])
}

// Whether the input is at its end; if not, says so on the stream of errors.
fn at_end<R: Read, E: Write>(input: &mut R, errors: &mut E) -> bool {
    let mut next = [0u8; 1];
    match input.read(&mut next) {
        Ok(0) => true,
        Ok(_) => {
            let _ = errors.write_all(
                b"csv_import: the file is larger than 1 MiB, and nothing is written\n",
            );
            false
        }
        Err(failure) => {
            say_failure(errors, b"csv_import: standard input", &failure);
            false
        }
    }
}

// Says why nothing is written.
fn name_refusal<E: Write>(reason: NotImported, errors: &mut E) {
    let number = Refusal::from(reason).number();
    let _ = match reason {
        NotImported::Settings => writeln!(errors, "R {number}: D is from 1 to 6"),
        NotImported::MalformedLine(line) => writeln!(
            errors,
            "R {number} line {line}: a line is D decimal numbers below 2^32, without sign, space or leading zero, one comma between"
        ),
        NotImported::ShortOutput => writeln!(
            errors,
            "R {number}: the frames do not fit the output"
        ),
    };
}

// Writes the frames of a file that was imported, or says why not.
fn answer<W: Write, E: Write>(
    imported: Result<usize, NotImported>,
    out: &[u8],
    outlet: &mut Outlet<W, E>,
)
    requires { IfOk imported (λ count. count ≤ length out.now) }
{
    match imported {
        Ok(count) => {
            streams::put_out(outlet, &out[..count], b"csv_import: standard output");
        }
        Err(reason) => name_refusal(reason, &mut outlet.errors),
    }
}

// Reads a file, imports it and writes its frames, in these buffers. One that is too large for its buffer is not judged: it is taken for an
// empty one, which has no frames.
fn import_in<R: Read, W: Write, E: Write>(
    d: u32,
    file: &mut [u8],
    out: &mut [u8],
    input: &mut R,
    outlet: &mut Outlet<W, E>,
) {
    let used = streams::read_full(input, file);
    let end = if at_end(input, &mut outlet.errors) {
        used
    } else {
        0
    };
    let imported = csv_frames::import(d, &file[..end], out);
    answer(imported, out, outlet);
}

// The same in buffers of the largest sizes. They are passed on as slices here and not in `main`, whose proof does not close with slices of
// arrays of that length.
fn import_file<R: Read, W: Write, E: Write>(
    d: u32,
    file: &mut [u8; FILE],
    out: &mut [u8; FRAMES],
    input: &mut R,
    outlet: &mut Outlet<W, E>,
) {
    import_in(d, &mut file[..], &mut out[..], input, outlet);
}

fn main(rt: HostRuntime) {
    let mut outlet = Outlet {
        output: rt.stdout(),
        errors: rt.stderr(),
    };
    let mut text = [0u8; 16];
    let length = rt.arg(1, &mut text).unwrap_or(0);
    let (Some(d), 2) = (number_of(&text[..length]), streams::arguments::count(&rt)) else {
        let _ = outlet.errors.write_all(
            b"usage: csv_import D < QUOTES > FRAMES, D the number of columns, from 1 to 6\n",
        );
        return;
    };
    let mut file = [0u8; FILE];
    let mut out = [0u8; FRAMES];
    import_file(d, &mut file, &mut out, &mut rt.stdin(), &mut outlet);
}
