// The venue joiner: joins the tapes of two venues, read from two files, and writes the joined pairs, or their quotes alone, to standard
// output. It keeps one piece of each tape at a time.
#![tactic(auto)]

ghost use Rattle.std.specs.Prelude.{◌≡◌, ◌≤◌, length};

use refusals::Refusal;
use std::env::Env;
use std::io::{Read, Write};
use std::mem;
use std::rt::Files;
use streams::{Outlet, say_failure};
use venue_join::Venue;
use venue_pieces::{Come, Joiner, Written, has_enough, join_piece};

// How many bytes of a tape are kept at a time, and how many are gathered before they are written out.
const PIECE: usize = 65536;

// How many bytes the name of a file has at most.
const LONGEST_NAME: usize = 4096;

// A tape in an open file, with the file's name: what has come of it, up to an end, and whether the file has ended.
#[derive(Drop)]
struct Source<'a, F> {
    file: F,
    name: &'a [u8],
    piece: [u8; PIECE],
    end: usize,
    ended: bool,
}

impl<F: Read> Source<'_, F> {
    // Reads on behind a pair that has not come whole, which is moved to the front of what has come of the tape. Answers whether the file can be
    // read; one that cannot is named on the stream of errors, and has ended.
    fn refill<E: Write>(&mut self, venue: &mut Venue, errors: &mut E) -> bool
        requires { (venue.old.place ≤ self.old.end) × (self.old.end ≤ length self.old.piece) }
        ensures { (venue.new.place ≤ self.new.end) × (self.new.end ≤ length self.new.piece) }
    {
        if has_enough(self.ended, venue.place, self.end) {
            return true;
        }
        streams::to_front(&mut self.piece, venue.place, self.end);
        self.end -= venue.place;
        venue.place = 0;
        match self.file.read(&mut self.piece[self.end..]) {
            Ok(count) => {
                self.end += count;
                self.ended = count == 0;
                true
            }
            Err(failure) => {
                say_failure(errors, self.name, &failure);
                self.ended = true;
                false
            }
        }
    }

    // What has come of the tape.
    fn come(&self) -> Come<'_>
        requires { self.now.end ≤ length self.now.piece }
        ensures { length result.tape.now ≡ self.now.end }
    {
        Come {
            tape: &self.piece[..self.end],
            ended: self.ended,
        }
    }
}

// Writes out what is gathered, and answers whether that went well.
fn flush<W: Write, E: Write>(joiner: &mut Joiner, out: &[u8], outlet: &mut Outlet<W, E>) -> bool
    requires { joiner.old.used ≤ length out.now }
    ensures { joiner.new ≡ record joiner.old { used = 0 } }
{
    let used = mem::take(&mut joiner.used);
    streams::put_out(outlet, &out[..used], b"venue_joiner: standard output")
}

// Joins two files, turn by turn: reads on in both, joins what has come and writes it out, until an answer is no pair, or a file or the
// output fails. Answers why the join is refused, if it is.
fn join_files<F: Read, W: Write, E: Write>(
    first: &mut Source<'_, F>,
    second: &mut Source<'_, F>,
    written: Written,
    outlet: &mut Outlet<W, E>,
) -> Result<(), Refusal>
    requires first_in_piece { first.old.end ≤ length first.old.piece }
    requires second_in_piece { second.old.end ≤ length second.old.piece }
{
    let mut joiner = Joiner::default();
    let mut out = [0u8; PIECE];
    'turns: for _ in 0..u64::MAX {
        let first_readable = first.refill(&mut joiner.one, &mut outlet.errors);
        let second_readable = second.refill(&mut joiner.two, &mut outlet.errors);
        join_piece(
            &mut joiner,
            &first.come(),
            &second.come(),
            written,
            &mut out,
        );
        let is_out = flush(&mut joiner, &out, outlet);
        if !(first_readable && second_readable && is_out && joiner.outcome.is_none()) {
            break;
        }
    }
    joiner.outcome.unwrap_or(Ok(()))
}

// What a refusal of the join means.
fn meaning(refusal: Refusal) -> &'static str {
    match refusal {
        Refusal::UnknownKind => "a frame's kind is unknown",
        Refusal::CutFrame => "a frame is cut by the end of its tape",
        Refusal::OutOfPlace => "a frame is neither a stamp nor a quote",
        Refusal::StampOrder => "a stamp is below the last of its tape, or above 86399999",
        _ => "a quote has no stamp before it, or a stamp no quote behind it",
    }
}

// Opens a file. One that cannot be opened is named on the stream of errors.
fn open<R: Files, E: Write>(files: &R, name: &[u8], errors: &mut E) -> Option<R::File> {
    match streams::files::open(files, name) {
        Ok(file) => Some(file),
        Err(failure) => {
            say_failure(errors, name, &failure);
            None
        }
    }
}

// Opens both files and joins them. A refusal's number and what it means are said on the stream of errors. The sources are made here, where
// they stay: one that is handed back is copied, piece and all.
fn join_named<R: Files, W: Write, E: Write>(
    files: &R,
    first_name: &[u8],
    second_name: &[u8],
    written: Written,
    outlet: &mut Outlet<W, E>,
) {
    let Some(first_file) = open(files, first_name, &mut outlet.errors) else {
        return;
    };
    let Some(second_file) = open(files, second_name, &mut outlet.errors) else {
        return;
    };
    let mut first = Source {
        file: first_file,
        name: first_name,
        piece: [0; PIECE],
        end: 0,
        ended: false,
    };
    let mut second = Source {
        file: second_file,
        name: second_name,
        piece: [0; PIECE],
        end: 0,
        ended: false,
    };
    if let Err(refusal) = join_files(&mut first, &mut second, written, outlet) {
        let number = refusal.number();
        let meant = meaning(refusal);
        let _ = writeln!(outlet.errors, "R {number} {meant}");
    }
}

// Whether the third argument is there and is `quotes`.
fn third_is_quotes<V: Env>(env: &V) -> bool {
    let mut word = [0u8; 8];
    match env.arg(3, &mut word) {
        Ok(length) => &word[..length] == b"quotes".as_slice(),
        Err(_) => false,
    }
}

// What is written of a pair, by the arguments; none where there are too few or too many, or the third is another word.
fn written_by<V: Env>(env: &V) -> Option<Written> {
    match streams::arguments::count(env) {
        3 => Some(Written::Pair),
        4 if third_is_quotes(env) => Some(Written::Quote),
        _ => None,
    }
}

// Says how the program is used.
fn usage<E: Write>(errors: &mut E) {
    let _ = errors.write_all(b"usage: venue_joiner FIRST SECOND [quotes]\n");
}

fn main(rt: HostRuntime) {
    let mut outlet = Outlet {
        output: rt.stdout(),
        errors: rt.stderr(),
    };
    let Some(written) = written_by(&rt) else {
        usage(&mut outlet.errors);
        return;
    };
    let mut first_name = [0u8; LONGEST_NAME];
    let Ok(first_length) = rt.arg(1, &mut first_name) else {
        usage(&mut outlet.errors);
        return;
    };
    let mut second_name = [0u8; LONGEST_NAME];
    let Ok(second_length) = rt.arg(2, &mut second_name) else {
        usage(&mut outlet.errors);
        return;
    };
    join_named(
        &rt,
        &first_name[..first_length],
        &second_name[..second_length],
        written,
        &mut outlet,
    );
}
