// The input of the book player: its lines found one by one in large pieces of standard input, and read.
ghost use Rattle.std.specs.Prelude.{◌≡◌, ◌≤◌, false};

use crate::{Command, read_line};
use std::io::{Read, Write};

// How many bytes of lines are kept at a time.
const PIECE: usize = 65536;

// A part of a line that is longer than any that the player can take.
const TOO_LONG: usize = 200;

// The text that has come of an input, up to an end, the place in it behind the last line that was found, and whether the input has ended.
#[derive(Drop)]
pub struct Input<R> {
    stream: R,
    text: [u8; PIECE],
    place: usize,
    end: usize,
    pub ended: bool,
    ghost place_within: { place ≤ end },
    ghost end_within: { end ≤ 65536 },
}

impl<R: Read> Input<R> {
    // An input of which nothing has come.
    pub fn new(stream: R) -> Input<R>
        ensures { result.ended ≡ false }
    {
        Input {
            stream,
            text: [0; PIECE],
            place: 0,
            end: 0,
            ended: false,
        }
    }

    // What the next line of the text that has come asks for; the begun line at its end is one where the input has ended. None where none is
    // left.
    pub fn next_line(&mut self) -> Option<Command> {
        let rest = &self.text[self.place..self.end];
        let long = match rest.iter().position(|byte| *byte == b'\n') {
            Some(long) => long,
            None if self.ended && !rest.is_empty() => rest.len(),
            None => return None,
        };
        let command = read_line(&rest[..long]);
        self.place = self.end.min(self.place + long + 1);
        Some(command)
    }

    // Reads on behind the begun line, of which enough is kept to show that it is too long. The input has ended where nothing comes.
    pub fn read_on<E: Write>(&mut self, errors: &mut E) {
        let kept = TOO_LONG.min(self.end - self.place);
        streams::to_front(&mut self.text, self.place, self.place + kept);
        let came = streams::read_in(
            &mut self.stream,
            &mut self.text[kept..],
            errors,
            b"book_player: standard input",
        );
        self.place = 0;
        self.end = kept + came;
        self.ended = came == 0;
    }
}
