// The join of two venues' tapes: the lower stamp first, the first tape on equal stamps.
#![tactic(auto)]

ghost use Rattle.std.specs.Prelude.{◌≡◌, ◌≤◌, length};
ghost use Rattle.venue_tapes.specs.VenueTapes.{ahead};
ghost use Rattle.venue_join.specs.Join.{venue, joint_of, join_at, passed, joint_in, part_in, answer_in, Joined};

use refusals::Refusal;
use venue_tapes::{Pair, next_pair};

// Where a tape stands: its reading place, and the stamp of its last pair, 0 at first.
#[derive(Clone, Copy, Default)]
pub struct Venue {
    pub place: usize,
    pub last: u32,
}

// A step of the join: the tape whose pair comes next, and where that tape stands behind it.
#[derive(Clone, Copy)]
pub enum Step {
    First(Venue),
    Second(Venue),
}

// Where a tape stands behind its pair.
fn behind(pair: Pair) -> Venue
    ensures { result ≡ venue pair.next pair.stamp }
{
    Venue {
        place: pair.next,
        last: pair.stamp,
    }
}

// Which pair comes next of those that both tapes have: the lower stamp's, the first tape's if they are equal.
#[tactic(auto, unfolding(crate::specs::Join::joint_in, crate::specs::Join::joint_of, crate::specs::Join::joint_by, crate::specs::Join::chosen, crate::specs::Join::moved, venue_tapes::specs::VenueTapes::ahead))]
fn choose(first: Option<Pair>, second: Option<Pair>) -> Option<Step>
    ensures { (v w : Venue) → joint_in v w (Ok result) ≡ joint_of (ahead (Ok first)) (ahead (Ok second)) v w }
{
    match (first, second) {
        (Some(one), Some(two)) if two.stamp < one.stamp => Some(Step::Second(behind(two))),
        (Some(one), _) => Some(Step::First(behind(one))),
        (None, Some(two)) => Some(Step::Second(behind(two))),
        (None, None) => None,
    }
}

// One join of two tapes, each at its place, with its last stamp: everything but the part. None at both ends; the first tape's refusal comes
// before the second's.
#[tactic(auto, using(crate::proofs::Joins::neither_refused))]
pub fn join_at(first: &[u8], second: &[u8], one: Venue, two: Venue) -> Result<Option<Step>, Refusal>
    ensures { joint_in one two result ≡ join_at first.now second.now one two }
{
    let next_first = next_pair(first, one.place, one.last)?;
    let next_second = next_pair(second, two.place, two.last)?;
    Ok(choose(next_first, next_second))
}

// The part of a tape that is passed, from where it stood up to where it stands behind its pair.
#[tactic(auto, unfolding(crate::specs::Join::passed))]
fn pass<'a>(tape: &'a [u8], before: Venue, behind: Venue) -> &'a [u8]
    requires { (before.place ≤ behind.place) × (behind.place ≤ length tape.now) }
    ensures { result.now ≡ passed tape.now before behind }
{
    &tape[before.place..behind.place]
}

// The next stamped quote of two tapes, both its frames, as a part of the tape that it came from; that tape's place and last stamp are
// moved. At both ends there is none, and then, as by a refusal, nothing is moved. Places and last stamps are lent as numbers, each by itself:
// that is what the join promises its callers to take.
pub fn join<'a>(
    first: &'a [u8],
    second: &'a [u8],
    first_place: &mut usize,
    first_last: &mut u32,
    second_place: &mut usize,
    second_last: &mut u32,
) -> Result<Option<&'a [u8]>, Refusal>
    ensures { Joined first.now second.now
        (venue first_place.old first_last.old)
        (venue second_place.old second_last.old)
        (part_in result) (answer_in result)
        (venue first_place.new first_last.new)
        (venue second_place.new second_last.new) }
{
    let one = Venue {
        place: *first_place,
        last: *first_last,
    };
    let two = Venue {
        place: *second_place,
        last: *second_last,
    };
    match join_at(first, second, one, two)? {
        Some(Step::First(behind)) => {
            *first_place = behind.place;
            *first_last = behind.last;
            Ok(Some(pass(first, one, behind)))
        }
        Some(Step::Second(behind)) => {
            *second_place = behind.place;
            *second_last = behind.last;
            Ok(Some(pass(second, two, behind)))
        }
        None => Ok(None),
    }
}
