// The watch of the pair and its end: a past list followed, its joins written, and a past list no longer followed.
ghost use Rattle.std.specs.Prelude.{◌≡◌, take};
ghost use Rattle.refusals.specs.Refusals.{number_of};
ghost use Rattle.lent_tables.specs.Lent.{lent};
ghost use Rattle.model.specs.Book.{pair_answer, unpair_answer};
ghost use Rattle.model.specs.Promises.{Paired, Unpaired};

use call_judging::{judge_watchful, refuse_if, short_output};
use call_looking::{out_of_sizes, window_of};
use head::{Head, Reply};
use lent_tables::LentTables;
use refusals::Refusal;
use table_listing::Follower;

// The answer of a watch of the pair with an output of this length.
fn judge_pair(
    head: Head,
    n1: u32,
    n2: u32,
    tables: &LentTables<'_>,
    watches: [u64; 8],
    records: usize,
    room: usize,
) -> Result<(), Refusal>
    ensures { number_of result ≡ pair_answer head n1 n2 (lent tables.now) (take records watches) room }
{
    judge_watchful(head, tables, watches, records)?;
    refuse_if(out_of_sizes(head, 2, n1, n2), Refusal::WindowSize)?;
    refuse_if(n2 < n1, Refusal::WindowOrder)?;
    refuse_if(head.n1 != 0, Refusal::NoFreeRecord)?;
    refuse_if(short_output(room), Refusal::ShortOutput)
}

// The answer of the end of the pair.
fn judge_unpair(
    head: Head,
    tables: &LentTables<'_>,
    watches: [u64; 8],
    records: usize,
) -> Result<(), Refusal>
    ensures { number_of result ≡ unpair_answer head (lent tables.now) (take records watches) }
{
    judge_watchful(head, tables, watches, records)?;
    refuse_if(head.n1 == 0, Refusal::NotWatched)
}

// Sets the pair n1 and n2 and writes a join for each position of its past list; hands back how many bytes.
pub fn pair(
    head: Head,
    n1: u32,
    n2: u32,
    tables: &LentTables<'_>,
    watches: [u64; 8],
    records: usize,
    out: &mut [u8],
) -> Reply
    ensures { Paired head n1 n2 (lent tables.now) (take records watches) out.old result out.new }
{
    if let Err(refusal) = judge_pair(head, n1, n2, tables, watches, records, out.len()) {
        return Reply::refused(refusal, head);
    }
    let window = window_of(head, n1, n2, tables);
    let count = window.write_joins(Follower::Pair, out);
    Reply::accepted(head.after_watch(n1, n2), count)
}

// Ends the pair.
pub fn unpair(head: Head, tables: &LentTables<'_>, watches: [u64; 8], records: usize) -> Reply
    ensures { Unpaired head (lent tables.now) (take records watches) result }
{
    if let Err(refusal) = judge_unpair(head, tables, watches, records) {
        return Reply::refused(refusal, head);
    }
    Reply::accepted(head.after_watch(0, 0), 0)
}
