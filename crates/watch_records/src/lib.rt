// The lent list of records that holds the watches of a book: read as numbers, stored, sought, and changed.
#![tactic(auto)]

ghost use Rattle.std.specs.Prelude.{◌≡◌, ◌≤◌, length};
ghost use Rattle.lists.specs.Lists.{contains, insert, without, padded};
ghost use Rattle.head.specs.Desks.{watch_of};
ghost use Rattle.model.specs.Book.{standing};
ghost use Rattle.watch_records.specs.Records.{record_number, record_at, watched, first_eight, stored};
ghost use Rattle.watch_numbers.specs.Vacancy.{Vacant};

use head::{Desk, Watch};
use watch_numbers::{DESK_UNIT, desk_of, find, insert, remove, size_of};

// A record as one number.
#[tactic(auto, unfolding(head::specs::Desks::record_of))]
fn number_of(watch: Watch) -> u64
    ensures { result ≡ record_number watch }
{
    u64::from(watch.desk) * DESK_UNIT + u64::from(watch.n)
}

// The record that a number stands for.
#[tactic(auto, unfolding(head::specs::Desks::size_in, head::specs::Desks::desk_in))]
fn record_at(number: u64) -> Watch
    ensures { result ≡ record_at number }
{
    Watch {
        n: size_of(number),
        desk: desk_of(number),
    }
}

// The first eight records as numbers; 0 where there is no record. Written by index, since of what is written through a zipped `iter_mut` a
// proof knows the length alone.
pub fn numbers(records: &[Watch]) -> [u64; 8]
    ensures { result ≡ first_eight (watched records.now) }
{
    let mut watches = [0u64; 8];
    for i in 0..records.len().min(8) {
        watches[i] = number_of(records[i]);
    }
    watches
}

// The first eight records, as far as there are any, get the numbers; those beyond stay. Written by index, as `numbers` is.
pub fn store(records: &mut [Watch], watches: [u64; 8])
    ensures { watched records.new ≡ stored watches (watched records.old) }
{
    for i in 0..records.len().min(8) {
        records[i] = record_at(watches[i]);
    }
}

// Whether a desk watches n.
pub fn find_record(records: &[Watch], desk: Desk, n: u32) -> bool
    ensures { result ≡ contains (watch_of desk n) (standing (watched records.now)) }
{
    find(numbers(records), desk, n)
}

// The records with a desk's watch of n put into its place.
pub fn insert_record(records: &mut [Watch], desk: Desk, n: u32)
    requires { (8 ≤ length records.old) × Vacant (watched records.old) }
    ensures { watched records.new ≡ padded 8
        (insert (watch_of desk n) (standing (watched records.old))) (watched records.old) }
{
    let watches = numbers(records);
    store(records, insert(watches, desk, n));
}

// The records without a desk's watch of n, with no gap, and empties behind them.
pub fn remove_record(records: &mut [Watch], desk: Desk, n: u32)
    requires { 8 ≤ length records.old }
    ensures { watched records.new ≡ padded 8
        (without (watch_of desk n) (standing (watched records.old))) (watched records.old) }
{
    let watches = numbers(records);
    store(records, remove(watches, desk, n));
}
