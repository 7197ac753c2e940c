// A program's input and output in large pieces: the unread rest of a buffer, and the bytes gathered for the output. What fails is said on
// the stream of errors, behind what the caller names.
#![tactic(auto)]

pub mod arguments;
pub mod files;

ghost use Rattle.std.specs.Prelude.{◌≡◌, ◌-◌, ◌≤◌, length, take, drop, true};
ghost use Rattle.std.specs.Io.KnownBytes.{Appends, Consumes};
ghost use Rattle.lists.specs.Lists.{laid};
ghost use Rattle.streams.specs.Counts.{IsPrefixLen};

use std::io;
use std::io::{Read, Write};

// Where a program writes: its output, and the stream on which it says what failed.
#[derive(Drop)]
pub struct Outlet<W, E> {
    pub output: W,
    pub errors: E,
}

// Moves the bytes from a place to an end to the front of the buffer.
#[tactic(auto, unfolding(lists::specs::Lists::laid))]
pub fn to_front(buffer: &mut [u8], place: usize, end: usize)
    requires { (place ≤ end) × (end ≤ length buffer.old) }
    ensures { buffer.new ≡ laid (take (end - place) (drop place buffer.old))
        buffer.old }
{
    buffer.copy_within(place..end, 0);
}

// The longest reason, with the number that stands behind it in brackets.
const REASON: usize = 320;

// The reason of a failure without its number in brackets.
fn reason(said: &[u8]) -> &[u8] {
    match said.iter().position(|byte| *byte == b'(') {
        Some(at) => &said[..at.saturating_sub(1)],
        None => said,
    }
}

// Says what failed, as the caller names it, and why.
pub fn say_failure<E: Write>(errors: &mut E, what: &[u8], failure: &io::Error) {
    let mut text = [0u8; REASON];
    let mut rest = &mut text[..];
    let _ = write!(rest, "{failure}");
    let used = REASON.saturating_sub(rest.len());
    let _ = errors.write_all(what);
    let _ = errors.write_all(b": ");
    let _ = errors.write_all(reason(&text[..used]));
    let _ = errors.write_all(b"\n");
}

// Writes the gathered bytes to the output, and answers whether that went well; if not, says so on the stream of errors.
pub fn put_out<W: Write, E: Write>(
    outlet: &mut Outlet<W, E>,
    gathered: &[u8],
    program: &[u8],
) -> bool
    ensures { result ≡ true → Appends (W.contents outlet.old.output) (W.contents outlet.new.output) gathered.now }
{
    match outlet.output.write_all(gathered) {
        Ok(()) => true,
        Err(failure) => {
            say_failure(&mut outlet.errors, program, &failure);
            false
        }
    }
}

// Reads from the input into the buffer: how many bytes came, none at the end of the input. A read that fails is the end of the input, said
// on the stream of errors.
pub fn read_in<R: Read, E: Write>(
    input: &mut R,
    buffer: &mut [u8],
    errors: &mut E,
    program: &[u8],
) -> usize
    ensures prefix_len { IsPrefixLen result buffer.new }
    ensures bytes { Consumes (R.remaining input.old) (R.remaining input.new) (take result buffer.new) }
{
    match input.read(buffer) {
        Ok(count) => count,
        Err(failure) => {
            say_failure(errors, program, &failure);
            0
        }
    }
}

// Reads into the buffer until it is full, the input ends or a read fails; how many bytes came.
pub fn read_full<R: Read>(input: &mut R, buffer: &mut [u8]) -> usize
    ensures prefix_len { IsPrefixLen result buffer.new }
    ensures bytes { Consumes (R.remaining input.old) (R.remaining input.new) (take result buffer.new) }
{
    // No `for`: a read gives as many bytes as it likes, and what it gives moves the place.
    let mut done = 0;
    while done < buffer.len() {
        match input.read(&mut buffer[done..]) {
            Ok(0) | Err(_) => break,
            Ok(came) => done += came,
        }
    }
    done
}

#[cfg(test)]
mod tests {
    use super::*;
    use std::test::Fail;

    // A stream on which nothing can be read or written.
    #[derive(Drop)]
    struct Broken;

    impl Read for Broken {
        fn read(&mut self, _buffer: &mut [u8]) -> io::Result<usize> {
            Err(io::Error::from_raw_os_error(5))
        }
    }

    impl Write for Broken {
        fn write(&mut self, _bytes: &[u8]) -> io::Result<usize> {
            Err(io::Error::from_raw_os_error(32))
        }

        fn flush(&mut self) -> io::Result<()> {
            Ok(())
        }
    }

    #[test]
    fn a_failed_write_is_said(rt: HostRuntime) -> Result<(), Fail> {
        let mut outlet = Outlet {
            output: Broken,
            errors: Vec::new(rt.alloc()),
        };
        assert!(rt; !put_out(&mut outlet, b"lines", b"a program: standard output"));
        let said = b"a program: standard output: Broken pipe\n";
        assert_eq!(rt; outlet.errors.as_slice(), said.as_slice());
        Ok(())
    }

    #[test]
    fn a_failed_read_is_said_and_is_the_end(rt: HostRuntime) -> Result<(), Fail> {
        let mut errors = Vec::new(rt.alloc());
        let mut buffer = [0u8; 4];
        let came = read_in(&mut Broken, &mut buffer, &mut errors, b"a program");
        assert_eq!(rt; came, 0);
        assert_eq!(rt;
            errors.as_slice(),
            b"a program: Input/output error\n".as_slice()
        );
        Ok(())
    }

    #[test]
    fn a_buffer_is_filled_or_the_input_ends(rt: HostRuntime) -> Result<(), Fail> {
        let mut input = b"tapes".as_slice();
        let mut first = [0u8; 2];
        assert_eq!(rt; read_full(&mut input, &mut first), 2);
        assert_eq!(rt; first.as_slice(), b"ta".as_slice());
        let mut rest = [0u8; 4];
        assert_eq!(rt; read_full(&mut input, &mut rest), 3);
        assert_eq!(rt; rest.as_slice(), b"pes\0".as_slice());
        Ok(())
    }
}
