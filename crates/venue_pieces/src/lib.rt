// What has come of two venues' tapes, joined: pair by pair, each with its bytes behind those that are gathered.
#![tactic(auto)]

ghost use Rattle.std.specs.Prelude.{◌≡◌, ◌+◌, ◌≤◌, length};
ghost use Rattle.octets.specs.Placed.{placed};
ghost use Rattle.venue_pieces.specs.Pieces.{enough, left_out, JoinedOne, goes_on, PieceJoined};

use refusals::Refusal;
use venue_join::{Venue, join};

// Where a joiner stands: both tapes' places and last stamps, how many bytes are gathered, and how the join came out: both tapes are at their
// ends, or why it is refused; none while every answer was a pair.
#[derive(Clone, Copy, Default)]
pub struct Joiner {
    pub one: Venue,
    pub two: Venue,
    pub used: usize,
    pub outcome: Option<Result<(), Refusal>>,
}

// What has come of a tape, and whether the tape has ended behind it.
#[derive(Clone, Copy)]
pub struct Come<'a> {
    pub tape: &'a [u8],
    pub ended: bool,
}

// What is written of a pair: both its frames, or the quote's alone.
#[derive(Clone, Copy)]
pub enum Written {
    Pair,
    Quote,
}

// As many bytes as the longest pair has: a stamp's five, and the 25 of a quote of six columns.
const LONGEST_PAIR: usize = 30;

// The bytes of a stamp's frame.
const STAMP_BYTES: usize = 5;

// Whether what is judged of a tape has come.
#[tactic(auto, unfolding(crate::specs::Pieces::enough))]
pub fn has_enough(ended: bool, place: usize, long: usize) -> bool
    ensures { result ≡ enough ended place long }
{
    ended || LONGEST_PAIR <= long.saturating_sub(place)
}

// Whether another join is made.
#[tactic(auto, unfolding(crate::specs::Pieces::goes_on))]
fn goes_on(joiner: Joiner, first: &Come<'_>, second: &Come<'_>, room: usize) -> bool
    requires { joiner.used ≤ room }
    ensures { result ≡ goes_on first.now.tape.now second.now.tape.now first.now.ended second.now.ended joiner room }
{
    joiner.outcome.is_none()
        && LONGEST_PAIR <= room - joiner.used
        && has_enough(first.ended, joiner.one.place, first.tape.len())
        && has_enough(second.ended, joiner.two.place, second.tape.len())
}

// How many bytes at the front of a part are not written: those of the stamp, where only quotes are.
#[tactic(auto, unfolding(crate::specs::Pieces::left_out))]
fn left_out(written: Written, long: usize) -> usize
    ensures { result ≡ left_out written long }
{
    match written {
        Written::Pair => 0,
        Written::Quote => STAMP_BYTES.min(long),
    }
}

// Lays bytes behind those that are gathered.
#[tactic(auto, unfolding(octets::specs::Placed::placed, lists::specs::Lists::laid))]
fn gather(bytes: &[u8], used: usize, out: &mut [u8])
    requires { used + length bytes.now ≤ length out.old }
    ensures { out.new ≡ placed bytes.now used out.old }
{
    out[used..used + bytes.len()].copy_from_slice(bytes);
}

// Makes one join, and lays what is written of its pair behind the bytes that are gathered.
fn join_one(joiner: &mut Joiner, first: &[u8], second: &[u8], written: Written, out: &mut [u8])
    requires { joiner.old.used + 30 ≤ length out.old }
    ensures { JoinedOne first.now second.now written joiner.old joiner.new
        out.old out.new }
{
    match join(
        first,
        second,
        &mut joiner.one.place,
        &mut joiner.one.last,
        &mut joiner.two.place,
        &mut joiner.two.last,
    ) {
        Ok(Some(part)) => {
            let bytes = &part[left_out(written, part.len())..];
            gather(bytes, joiner.used, out);
            joiner.used += bytes.len();
            joiner.outcome = None;
        }
        Ok(None) => joiner.outcome = Some(Ok(())),
        Err(refusal) => joiner.outcome = Some(Err(refusal)),
    }
}

// Joins what has come of both tapes, until an answer is no pair, more of a tape has to come, or a pair may find no room.
pub fn join_piece(
    joiner: &mut Joiner,
    first: &Come<'_>,
    second: &Come<'_>,
    written: Written,
    out: &mut [u8],
)
    requires { joiner.old.used ≤ length out.old }
    ensures { PieceJoined first.now.tape.now second.now.tape.now first.now.ended second.now.ended written
        joiner.old out.old joiner.new out.new }
{
    'pairs: while goes_on(*joiner, first, second, out.len()) {
        join_one(joiner, first.tape, second.tape, written, out);
    }
}
