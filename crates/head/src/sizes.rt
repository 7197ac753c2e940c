// How long buffers are that suffice for every book and every answer.

// Watch records.
pub const WATCHES: usize = 8;

// Places of the tables: the largest N.
pub const PLACES: usize = 1024;

// Cells of the columns: six for each place.
pub const COLUMN_CELLS: usize = 6 * PLACES;

// Bytes of a watch's change.
pub const CHANGE_FRAME: usize = 7;

// Bytes of a change of the pair.
pub const PAIR_FRAME: usize = 5;

// Bytes of the changes of any call: from each watched list every position may go, and one may come; the pair brings at
// most one change for each place.
pub const CHANGE_BYTES: usize = WATCHES * (PLACES + 1) * CHANGE_FRAME + PLACES * PAIR_FRAME;
