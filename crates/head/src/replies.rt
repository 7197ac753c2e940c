// What the calls hand back.
ghost use Rattle.std.specs.Prelude.{◌≡◌};
ghost use Rattle.head.specs.Replies.{refusing, accepting};

use crate::Head;
use refusals::Refusal;

// What a call hands back: its answer, the head for the next call, and how many bytes or positions it wrote. A refused call has a head and a
// count too, of which the model's theorems speak, so that these stand beside the answer and not inside it.
#[derive(Clone, Copy)]
pub struct Reply {
    pub answer: Result<(), Refusal>,
    pub head: Head,
    pub count: usize,
}

impl Reply {
    // A refused call's: this head, and a count of 0.
    pub fn refused(refusal: Refusal, head: Head) -> Reply
        ensures { result ≡ refusing refusal head }
    {
        Reply {
            answer: Err(refusal),
            head,
            count: 0,
        }
    }

    // An accepted call's.
    pub fn accepted(head: Head, count: usize) -> Reply
        ensures { result ≡ accepting head count }
    {
        Reply {
            answer: Ok(()),
            head,
            count,
        }
    }
}

// What a preview of a quote hands back: the quote's answer and count with the head as it came, and how many rows the quote would leave
// live and held.
#[derive(Clone, Copy)]
pub struct Effect {
    pub reply: Reply,
    pub live: u32,
    pub held: u32,
}

// What a quote and look in one hands back: the quote's answer, head and count of bytes, and how many positions the look wrote; refused, 0
// for both counts.
#[derive(Clone, Copy)]
pub struct BothReply {
    pub reply: Reply,
    pub listed: usize,
}
