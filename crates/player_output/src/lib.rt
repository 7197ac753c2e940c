// The output of the book player: lines of numbers, gathered and written out in large pieces.
#![tactic(auto)]

ghost use Rattle.std.specs.Prelude.{◌≡◌, ◌+◌, ◌≤◌};

use std::io::Write;
use std::mem;
use streams::Outlet;

// How many bytes are gathered before they are written out.
const PIECE: usize = 65536;

// The most bytes of a space and a number.
const FIELD: usize = 11;

// What is gathered for the output, which lies within its piece, and whether the output has failed.
#[derive(Drop)]
pub struct Page<W, E> {
    outlet: Outlet<W, E>,
    piece: [u8; PIECE],
    pub used: usize,
    pub failed: bool,
    ghost within: { used ≤ 65536 },
}

impl<W: Write, E: Write> Page<W, E> {
    // An empty page.
    pub fn new(outlet: Outlet<W, E>) -> Page<W, E>
        ensures { result.used ≡ 0 }
    {
        Page {
            outlet,
            piece: [0; PIECE],
            used: 0,
            failed: false,
        }
    }

    // Writes out what is gathered.
    pub fn flush(&mut self)
        ensures { self.new.used ≡ 0 }
    {
        let used = mem::take(&mut self.used);
        if !streams::put_out(
            &mut self.outlet,
            &self.piece[..used],
            b"book_player: standard output",
        ) {
            self.failed = true;
        }
    }

    // Writes out what is gathered where so many bytes have no room behind it.
    fn make_room(&mut self, bytes: usize)
        requires { bytes ≤ 65536 }
        ensures { self.new.used + bytes ≤ 65536 }
    {
        if PIECE - self.used < bytes {
            self.flush();
        }
    }

    // Prints a byte.
    fn put_byte(&mut self, byte: u8) {
        self.make_room(1);
        self.piece[self.used] = byte;
        self.used += 1;
    }

    // Prints a space and a number.
    #[tactic(auto, using(text::proofs::Digits::at_most_ten))]
    fn put_field(&mut self, n: u32) {
        self.make_room(FIELD);
        self.piece[self.used] = b' ';
        let count = text::put_number(n, &mut self.piece[self.used + 1..]);
        self.used += 1 + count;
    }

    // Prints a line of numbers behind a letter.
    pub fn put_numbers<T: Copy + Into<u32>>(&mut self, letter: u8, numbers: &[T]) {
        self.put_byte(letter);
        for n in numbers {
            self.put_field((*n).into());
        }
        self.put_byte(b'\n');
    }

    // Prints a few bytes.
    pub fn put_word(&mut self, word: &[u8]) {
        for byte in word {
            self.put_byte(*byte);
        }
    }
}
