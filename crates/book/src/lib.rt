// The public calls on a book, with the watches in a lent list of records: the opening here, the others handed on.
#![tactic(auto)]

ghost use Rattle.watch_records.specs.Records.{watched};
ghost use Rattle.lent_tables.specs.Lent.{lent_mut, SameLoan};
ghost use Rattle.model.specs.Promises.{Opened};

pub use book_changed_records::{end, watch};
pub use book_shared_records::{both, pair, preview, quote, unpair};
pub use call_looking::{due, look, past};
use head::{Reply, Watch};
use lent_tables::LentTablesMut;
pub use watch_records::find_record;
use watch_records::{numbers, store};

// Begins a new book: the head is fresh, the places of the tables are zeros, and the eight records are empty.
pub fn open(
    dimensions: u32,
    capacity: u32,
    directions: u32,
    tables: &mut LentTablesMut<'_>,
    watches: &mut [Watch],
) -> Reply
    ensures same_loan { SameLoan tables.old tables.new }
    ensures made { Opened dimensions capacity directions
        (lent_mut tables.old)
        (watched watches.old) result
        (lent_mut tables.new)
        (watched watches.new) }
{
    let before = numbers(watches);
    let records = watches.len();
    let made = call_opening::open(dimensions, capacity, directions, tables, before, records);
    store(watches, made.watches);
    made.reply
}
