// What is due: the rows that join the past list of the pair, written into lent cells with after how many more quotes each does.
ghost use Rattle.std.specs.Prelude.{◌+◌, ◌-◌, ◌≤◌, length};
ghost use Rattle.skyline.specs.Skyline.{window_start};
ghost use Rattle.head.specs.Heads.{last_position, max_capacity};
ghost use Rattle.lent_tables.specs.Lent.{lent};
ghost use Rattle.model.specs.Promises.{DueLooked};
ghost use Rattle.table_listing.specs.Picked.{Window};
ghost use Rattle.call_looking.specs.Shown.{Written};
ghost use Rattle.call_looking.specs.Due.{due_on, due_cells_on};

use crate::window_of;
use call_judging::judge;
use head::{Head, Reply};
use lent_tables::LentTables;
use refusals::Refusal;
use table_listing::start_of;

// Writes of each row that is due for the head's pair its position and after how many more quotes it joins, oldest first, if there is
// room, and hands back how many rows.
fn write_rows(head: Head, tables: &LentTables<'_>, out: &mut [u32]) -> Reply
    requires newest_le_last_position { head.newest ≤ last_position }
    requires le_n1 { 1 ≤ head.n1 }
    requires n1_le_max_capacity { head.n1 ≤ max_capacity }
    requires window { Window (window_start head.newest head.capacity) (window_start head.newest (head.n1 - 1))
        (head.newest + 1 - 1) tables.now.lower_ends.now tables.now.upper_ends.now }
    ensures { Written head (due_cells_on head tables.now.lower_ends.now)
        (length (due_on head tables.now.lower_ends.now)) out.old result out.new }
{
    let window = window_of(head, 1, head.n1 - 1, tables);
    let c = start_of(head, head.n2);
    let count = window.count_due(c);
    let cells = 2 * count;
    if out.len() < cells {
        return Reply::refused(Refusal::ShortOutput, head);
    }
    window.write_due(c, head.n1, out);
    Reply::accepted(head, count)
}

// Writes of each row that is due its position and after how many more quotes it joins the past list of the pair, oldest first, and hands
// back how many rows; nothing where no pair is watched.
pub fn due(head: Head, tables: &LentTables<'_>, out: &mut [u32]) -> Reply
    ensures { DueLooked head (lent tables.now) out.old result out.new }
{
    if let Err(refusal) = judge(head, tables) {
        return Reply::refused(refusal, head);
    }
    if head.n1 == 0 {
        return Reply::accepted(head, 0);
    }
    write_rows(head, tables, out)
}
