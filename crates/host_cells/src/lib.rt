// What the cells of a C host hold: a head in eight, a watch record in two, and what an answer and a desk are as numbers.
#![tactic(auto)]

ghost use Rattle.std.specs.Prelude.{◌≡◌, ◌≤◌, length, drop};
ghost use Rattle.refusals.specs.Refusals.{number_of};
ghost use Rattle.watch_records.specs.Records.{watched};
ghost use Rattle.host_cells.specs.Cells.{head_in, desk_of, eight_records};

use head::{Desk, Head, Watch};
use refusals::Refusal;

// The head that eight cells hold.
#[tactic(auto, unfolding(crate::specs::Cells::head_in))]
pub fn head_of(cells: &[u32; 8]) -> Head
    ensures { result ≡ head_in cells.now }
{
    let [dimensions, capacity, directions, newest, live, held, n1, n2] = *cells;
    Head {
        dimensions,
        capacity,
        directions,
        newest,
        live,
        held,
        n1,
        n2,
    }
}

// Stores a head in eight cells.
#[tactic(auto, unfolding(crate::specs::Cells::head_in))]
pub fn store_head(head: Head, cells: &mut [u32; 8])
    ensures { head_in cells.new ≡ head }
{
    let Head {
        dimensions,
        capacity,
        directions,
        newest,
        live,
        held,
        n1,
        n2,
    } = head;
    *cells = [dimensions, capacity, directions, newest, live, held, n1, n2];
}

// 0 where a call is accepted, else the number of its refusal.
pub fn number_of(answer: Result<(), Refusal>) -> u32
    ensures { result ≡ number_of answer }
{
    match answer {
        Ok(()) => 0,
        Err(refusal) => refusal.number(),
    }
}

// Desk two for 2, desk one for any other number.
#[tactic(auto, unfolding(crate::specs::Cells::desk_of))]
pub fn desk_of(desk: u32) -> Desk
    ensures { result ≡ desk_of desk }
{
    if desk == 2 { Desk::Two } else { Desk::One }
}

// The eight records that the first sixteen cells hold.
pub fn records_of(cells: &[u32]) -> [Watch; 8]
    requires { 16 ≤ length cells.now }
    ensures { watched result ≡ eight_records cells.now }
{
    let mut records = [Watch { n: 0, desk: 0 }; 8];
    for i in 0..8 {
        records[i] = Watch {
            n: cells[2 * i],
            desk: cells[2 * i + 1],
        };
    }
    records
}

// Stores eight records in the first sixteen cells.
pub fn store_records(records: [Watch; 8], cells: &mut [u32])
    requires { 16 ≤ length cells.old }
    ensures cells_after { eight_records cells.new ≡ watched records }
    ensures cells_unchanged { drop 16 cells.new ≡ drop 16 cells.old }
{
    for i in 0..8 {
        let record = records[i];
        cells[2 * i] = record.n;
        cells[2 * i + 1] = record.desk;
    }
}
