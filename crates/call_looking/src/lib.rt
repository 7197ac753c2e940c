// The looks: the list of n, and the past list of n1 and n2, written into lent cells; and what is due of the pair.
#![tactic(auto)]

mod due_rows;

ghost use Rattle.std.specs.Prelude.{◌≡◌, ◌+◌, ◌-◌, ◌≤◌, ◌||◌, ltb, length};
ghost use Rattle.head.specs.Heads.{last_position};
ghost use Rattle.refusals.specs.Refusals.{number_of};
ghost use Rattle.lent_tables.specs.Lent.{lent};
ghost use Rattle.model.specs.Promises.{Looked, PastLooked};
ghost use Rattle.skyline.specs.Skyline.{window_start};
ghost use Rattle.table_listing.specs.Listed.{on_list};
ghost use Rattle.table_listing.specs.Picked.{Window};
ghost use Rattle.call_looking.specs.Shown.{Shown, WindowOf, size_answer, sizes_answer};

use call_judging::{judge, out_of_range, refuse_if};
pub use due_rows::due;
use head::{Head, Reply};
use lent_tables::LentTables;
use refusals::Refusal;
use table_listing::{RowWindow, start_of};

// The answer of a look at the list of n but for the output: 3, 11, 12, 5.
fn judge_size(head: Head, n: u32, tables: &LentTables<'_>) -> Result<(), Refusal>
    ensures { number_of result ≡ size_answer head n (lent tables.now) }
{
    judge(head, tables)?;
    refuse_if(out_of_range(head, n), Refusal::WindowSize)
}

// Whether n1 is below this least or n2 above the capacity.
pub fn out_of_sizes(head: Head, least: u32, n1: u32, n2: u32) -> bool
    ensures { result ≡ (ltb n1 least || ltb head.capacity n2) }
{
    (n1 < least) | (head.capacity < n2)
}

// The answer of a look at the past list of n1 and n2 but for the output: 3, 11, 12, 5, 14.
fn judge_sizes(head: Head, n1: u32, n2: u32, tables: &LentTables<'_>) -> Result<(), Refusal>
    ensures { number_of result ≡ sizes_answer head n1 n2 (lent tables.now) }
{
    judge(head, tables)?;
    refuse_if(out_of_sizes(head, 1, n1, n2), Refusal::WindowSize)?;
    refuse_if(n2 < n1, Refusal::WindowOrder)
}

// The last position of the window that ends n - 1 positions before the newest, or 0.
fn end_of(head: Head, n: u32) -> u32
    requires { head.newest ≤ last_position }
    ensures { result ≡ head.newest + 1 - n }
{
    (head.newest + 1).saturating_sub(n)
}

// The window of the past list of n1 and n2, which for an n1 of 1 is that of the list of n2.
pub fn window_of<'a>(head: Head, n1: u32, n2: u32, tables: &LentTables<'a>) -> RowWindow<'a>
    requires newest_le_last_position { head.newest ≤ last_position }
    requires within { Window (window_start head.newest head.capacity) (window_start head.newest n2) (head.newest + 1 - n1)
        tables.now.lower_ends.now tables.now.upper_ends.now }
    ensures { WindowOf head n1 n2 (lent tables.now) result }
{
    RowWindow {
        first: start_of(head, head.capacity),
        start: start_of(head, n2),
        end: end_of(head, n1),
        lower_ends: tables.lower_ends,
        upper_ends: tables.upper_ends,
    }
}

// Whether the list of a window has more positions than this space. It has no more than the window, so with space for all of those they
// are not counted.
fn short_list(window: &RowWindow<'_>, space: usize) -> bool
    ensures { result ≡ ltb space (length (on_list window.now)) }
{
    let most = (window.end as usize) + 1 - (window.start as usize);
    (space < most) && (space < window.count_listed())
}

// Writes the positions of the list of a window into out, oldest first, if there is room, and hands back how many.
fn write_list(head: Head, window: &RowWindow<'_>, out: &mut [u32]) -> Reply
    ensures { Shown head (on_list window.now) out.old result out.new }
{
    if short_list(window, out.len()) {
        return Reply::refused(Refusal::ShortOutput, head);
    }
    let written = window.write_listed(out);
    Reply::accepted(head, written)
}

// Writes the positions of the list of n into out, oldest first, and hands back how many.
pub fn look(head: Head, n: u32, tables: &LentTables<'_>, out: &mut [u32]) -> Reply
    ensures { Looked head n (lent tables.now) out.old result out.new }
{
    if let Err(refusal) = judge_size(head, n, tables) {
        return Reply::refused(refusal, head);
    }
    let window = window_of(head, 1, n, tables);
    write_list(head, &window, out)
}

// Writes the positions of the past list of n1 and n2 into out, oldest first, and hands back how many.
pub fn past(head: Head, n1: u32, n2: u32, tables: &LentTables<'_>, out: &mut [u32]) -> Reply
    ensures { PastLooked head n1 n2 (lent tables.now) out.old result out.new }
{
    if let Err(refusal) = judge_sizes(head, n1, n2, tables) {
        return Reply::refused(refusal, head);
    }
    let window = window_of(head, n1, n2, tables);
    write_list(head, &window, out)
}
