// Reading a tape by a lent reading place, which is moved past each frame read.
ghost use Rattle.frames.specs.Moved.{Moved};

use crate::reader::read_at;
use crate::{Place, Read};

// What is read at the place. The place is moved past the frame; at the end, and by a refusal, it is left where it was.
#[tactic(auto, using(crate::proofs::Reading::read_next))]
pub fn read_next(tape: &[u8], place: &mut Place) -> Read
    ensures { Moved tape.now place.old result place.new }
{
    let at = place.at;
    let read = read_at(tape, at);
    place.at = read.next;
    read
}
