// The kinds of a watch's changes, by its desk.
ghost use Rattle.std.specs.Prelude.{◌≡◌};
ghost use Rattle.table_changes.specs.Kinds.{kinds_of};

use frames::{JOIN, JOIN_TWO, LEAVE, LEAVE_TWO};
use watch_numbers::desk_of;

// The kinds of a watch's leaves and joins.
#[derive(Clone, Copy)]
pub struct Kinds {
    pub leave: u8,
    pub join: u8,
}

// The kinds of a watch; a record has its desk as a number, as the saved watches of the C interface do.
#[tactic(auto, unfolding(crate::specs::Kinds::kinds_of, model::specs::Changes::leave_kind_of, model::specs::Changes::join_kind_of))]
pub fn kinds_of(watch: u64) -> Kinds
    ensures { result ≡ kinds_of watch }
{
    if desk_of(watch) == 2 {
        return Kinds {
            leave: LEAVE_TWO,
            join: JOIN_TWO,
        };
    }
    Kinds {
        leave: LEAVE,
        join: JOIN,
    }
}
