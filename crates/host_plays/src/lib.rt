// One frame of a tape played for a C host, its lines laid at the start of a lent text.
#![tactic(auto)]

ghost use Rattle.std.specs.Prelude.{◌≡◌};
ghost use Rattle.head.specs.Desks.{record_of};
ghost use Rattle.model.specs.Promises.{tables};
ghost use Rattle.host_cells.specs.Cells.{eight_records};
ghost use Rattle.host_plays.specs.Plays.{flag_of, CellsPlayed};

use host_cells::{head_of, number_of, store_head};
use lent_tables::LentTablesMut;
use tape::{CHANGE_BYTES, TEXT_BYTES, play};
use watch_numbers::{DESK_UNIT, desk_of, size_of};

// A record of n and desk as one number.
fn record_of(n: u32, desk: u32) -> u64
    ensures { result ≡ record_of desk n }
{
    (desk as u64) * DESK_UNIT + (n as u64)
}

// The eight records that sixteen cells hold, each as one number.
fn numbers_of(cells: &[u32; 16]) -> [u64; 8]
    ensures { result ≡ eight_records cells.now }
{
    [
        record_of(cells[0], cells[1]),
        record_of(cells[2], cells[3]),
        record_of(cells[4], cells[5]),
        record_of(cells[6], cells[7]),
        record_of(cells[8], cells[9]),
        record_of(cells[10], cells[11]),
        record_of(cells[12], cells[13]),
        record_of(cells[14], cells[15]),
    ]
}

// Stores eight records in sixteen cells.
fn store_numbers(watches: [u64; 8], cells: &mut [u32; 16])
    ensures { eight_records cells.new ≡ watches }
{
    *cells = [
        size_of(watches[0]),
        desk_of(watches[0]),
        size_of(watches[1]),
        desk_of(watches[1]),
        size_of(watches[2]),
        desk_of(watches[2]),
        size_of(watches[3]),
        desk_of(watches[3]),
        size_of(watches[4]),
        desk_of(watches[4]),
        size_of(watches[5]),
        desk_of(watches[5]),
        size_of(watches[6]),
        desk_of(watches[6]),
        size_of(watches[7]),
        desk_of(watches[7]),
    ];
}

// Plays the frame at a place of a tape on any book. The turn holds the place, then how many bytes of text the last frame printed, and
// whether the tape is over.
#[unsafe(no_mangle)]
pub extern "C" fn bqb_play(
    tape: &[u8],
    turn: &mut [usize; 3],
    head: &mut [u32; 8],
    columns: &mut [u32],
    positions: &mut [u32],
    lower_ends: &mut [u32],
    upper_ends: &mut [u32],
    watches: &mut [u32; 16],
    bytes: &mut [u8; CHANGE_BYTES],
    text: &mut [u8; TEXT_BYTES],
) -> u32
    ensures { CellsPlayed tape.now turn.old head.old
        (tables columns.old positions.old lower_ends.old upper_ends.old)
        watches.old bytes.old text.old result turn.new head.new
        (tables columns.new positions.new lower_ends.new upper_ends.new)
        watches.new bytes.new text.new }
{
    let mut tables = LentTablesMut {
        columns,
        positions,
        lower_ends,
        upper_ends,
    };
    let step = play(
        tape,
        turn[0],
        head_of(head),
        &mut tables,
        numbers_of(watches),
        bytes,
        text,
    );
    store_head(step.turn.head, head);
    store_numbers(step.turn.watches, watches);
    *turn = [step.next, step.turn.count, usize::from(step.over)];
    number_of(step.turn.answer)
}
