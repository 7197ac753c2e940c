// What a quote finds among the rows that a book holds, on shared tables, and the tables settled by it, one at a time.
#![tactic(auto)]

ghost use Rattle.std.specs.Prelude.{◌≡◌, ◌+◌, ◌*◌, ◌≤◌, ◌<◌, true, length};
ghost use Rattle.head.specs.Heads.{last_position};
ghost use Rattle.model.specs.Rows.{expiring};
ghost use Rattle.table_cells.specs.Marked.{Below};
ghost use Rattle.lent_tables.specs.Lent.{lent};
ghost use Rattle.table_finding.specs.Found.{live_in, last_number, Sound};
ghost use Rattle.call_settling.specs.Findings.{expired_places, position_of, held_rows, Findable, Tellable, told, Finds, Placed, named_if};
ghost use Rattle.call_settling.specs.Settled.{rows_settled, lowers_settled, uppers_settled, Ready};

use head::Head;
use lent_tables::LentTables;
use table_cells::{enter, put, rename, store_at};
use table_finding::{ComparedRows, Found};

// What is found of a quote before anything is written: how many places expire with it, the position that does, how many places may hold a
// lower end that names it, from where on the places of the retired rows are listed, the quote's lower end, how many rows are live and held
// after it, and whether the book is known to be a reachable one, in tables with a place to spare: its row is then put behind the others,
// none of which is moved. The position and the lower end are as cells of the tables hold them, where 0 stands for none (`told` and the saved
// tables hold it).
#[derive(Clone, Copy)]
pub struct Finding {
    pub by: usize,
    pub gone: u32,
    pub named: usize,
    pub at: usize,
    pub lower: u32,
    pub live: u32,
    pub held: u32,
    pub reachable: bool,
}

// How many places expire with the next quote: one where all N hold a row.
#[tactic(auto, unfolding(crate::specs::Findings::expired_places))]
fn expired_places(head: Head) -> usize
    requires { head.held ≤ head.capacity }
    ensures { result ≡ expired_places head }
{
    usize::from(head.held == head.capacity)
}

// The position that expires with the next quote, or 0.
#[tactic(auto, unfolding(model::specs::Rows::expiring))]
fn expired_position(head: Head) -> u32
    requires { head.newest < last_position }
    ensures { result ≡ expiring head.newest head.capacity }
{
    (head.newest + 1).saturating_sub(head.capacity)
}

// The position of the row at a place, as a cell of the tables: 0 where there is none.
#[tactic(auto, unfolding(crate::specs::Findings::position_of))]
fn position_of(head: Head, place: Option<usize>) -> u32
    requires held_le_newest { head.held ≤ head.newest }
    requires number_le_held { last_number place ≤ head.held }
    ensures { result ≡ position_of head (last_number place) }
{
    match place {
        None => 0,
        Some(i) => head.newest - head.held + (i as u32 + 1),
    }
}

// How many of the places that expire hold a live row.
fn expired_live(by: usize, upper_ends: &[u32]) -> u32
    requires by_bound { by ≤ 1 }
    requires by_in_bounds { by ≤ length upper_ends.now }
    ensures { result ≡ live_in upper_ends.now 0 by }
{
    if by == 0 {
        return 0;
    }
    u32::from(upper_ends[0] == 0)
}

// How many places may hold a lower end that names the expired position: all of those held, or fewer in a reachable book.
fn named_before(reachable: bool, head: Head, upper_ends: &[u32]) -> usize
    requires { Placed head upper_ends.now }
    ensures { result ≡ named_if reachable head upper_ends.now }
{
    let held = head.held as usize;
    if !reachable {
        return held;
    }
    let gone = expired_position(head);
    if gone == 0 {
        return 0;
    }
    let upper = upper_ends[0];
    if upper == 0 {
        return held;
    }
    (upper - gone) as usize
}

// What is found, whether the book is known to be reachable, what is found among its rows, and how many of them are retired.
fn tell(reachable: bool, head: Head, upper_ends: &[u32], found: Found, retired: usize) -> Finding
    requires tellable { Tellable head upper_ends.now (last_number found.last) retired }
    requires placed { Placed head upper_ends.now }
    ensures { result ≡ told head upper_ends.now reachable found.at (last_number
        found.last) retired }
{
    let by = expired_places(head);
    let gone = expired_position(head);
    let lower = position_of(head, found.last);
    let lost = expired_live(by, upper_ends) + (retired as u32);
    Finding {
        by,
        gone,
        named: named_before(reachable, head, upper_ends),
        at: found.at,
        lower,
        live: head.live - lost + 1,
        held: head.held - (by as u32) + 1,
        reachable,
    }
}

// Finds what a quote does to the rows of a book that is not torn, and lists the places of those that it retires. In a reachable book no row
// need be gone through beyond the youngest live one over the quote.
pub fn find(
    reachable: bool,
    head: Head,
    quote: &[u32],
    tables: &LentTables<'_>,
    places: &mut [u16],
) -> Finding
    requires findable { Findable head quote.now (lent tables.now).columns (lent
        tables.now).upper_ends places.old }
    requires placed { Placed head (lent tables.now).upper_ends }
    requires sound { reachable ≡ true → Sound (held_rows head quote.now (lent
        tables.now).columns (lent tables.now).upper_ends) (expired_places head) head.held }
    ensures reachable_value { result.reachable ≡ reachable }
    ensures finds { Finds head quote.now (lent tables.now).columns (lent
        tables.now).upper_ends places.new result }
{
    let rows = ComparedRows {
        directions: head.directions,
        d: head.dimensions as usize,
        columns: tables.columns,
        uppers: tables.upper_ends,
        quote,
        sound: reachable,
        dense: head.held / 2 <= head.live,
    };
    let found = rows.find_rows(expired_places(head), head.held as usize, places);
    tell(
        reachable,
        head,
        tables.upper_ends,
        found,
        places.len() - found.at,
    )
}

// Settles a table of so many cells a row: the row is put behind the others, from which those that expire are taken off, and zeros follow up
// to place N; in a reachable book no row is moved.
pub fn settle(head: Head, found: Finding, width: usize, row: &[u32], cells: &mut [u32])
    requires ready { Ready head found.reachable width found.by cells.old }
    requires row_len { length row.now ≡ width }
    ensures { cells.new ≡ rows_settled head found.reachable width found.by row.now
        cells.old }
{
    let held = head.held as usize;
    if found.reachable {
        put(cells, held * width, row);
        return;
    }
    let by = found.by;
    let capacity = head.capacity as usize;
    enter(cells, by * width, held * width, row, capacity * width);
}

// Settles the lower ends: those that name the expired position name none, and the quote's is put behind.
pub fn settle_lower_ends(head: Head, found: Finding, lower_ends: &mut [u32])
    requires ready { Ready head found.reachable 1 found.by lower_ends.old }
    requires named_le_held { found.named ≤ head.held }
    ensures { lower_ends.new ≡ lowers_settled head found.reachable found.by found.gone
        found.named found.lower lower_ends.old }
{
    rename(lower_ends, found.gone, found.named);
    settle(head, found, 1, &[found.lower], lower_ends);
}

// Settles the upper ends: those of the retired rows name the quote, and the quote has none.
pub fn settle_upper_ends(head: Head, found: Finding, places: &[u16], upper_ends: &mut [u32])
    requires ready { Ready head found.reachable 1 found.by upper_ends.old }
    requires newest_lt_last_position { head.newest < last_position }
    requires below { Below places.now head.held }
    ensures { upper_ends.new ≡ uppers_settled head found.reachable found.by places.now
        upper_ends.old }
{
    store_at(upper_ends, places, head.newest + 1);
    settle(head, found, 1, &[0], upper_ends);
}
