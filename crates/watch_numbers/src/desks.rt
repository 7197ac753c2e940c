// A watch record as one number: its desk above every n.
ghost use Rattle.std.specs.Prelude.{◌≡◌};
ghost use Rattle.head.specs.Desks.{desk_number, desk_in, size_in, watch_of};

use head::Desk;

// What a desk counts for in the number of a record.
pub const DESK_UNIT: u64 = 4294967296;

// The number of a desk, as a record has it. A function, since `Desk` and `u32` are both of other crates, and so no `From` can stand here.
pub fn desk_number(desk: Desk) -> u32
    ensures { result ≡ desk_number desk }
{
    match desk {
        Desk::One => 1,
        Desk::Two => 2,
    }
}

// The record of a desk's watch of n.
#[tactic(auto, unfolding(head::specs::Desks::watch_of, head::specs::Desks::record_of))]
pub fn watch_of(desk: Desk, n: u32) -> u64
    ensures { result ≡ watch_of desk n }
{
    u64::from(desk_number(desk)) * DESK_UNIT + u64::from(n)
}

// The desk of a record.
#[tactic(auto, unfolding(head::specs::Desks::desk_in))]
pub fn desk_of(watch: u64) -> u32
    ensures { result ≡ desk_in watch }
{
    (watch / DESK_UNIT) as u32
}

// The n of a record.
#[tactic(auto, unfolding(head::specs::Desks::size_in))]
pub fn size_of(watch: u64) -> u32
    ensures { result ≡ size_in watch }
{
    (watch % DESK_UNIT) as u32
}
