// The watch and its end: a list followed, its joins written, and a list no longer followed; and the same of the pair's past list.
#![tactic(auto)]

mod pairing;

ghost use Rattle.std.specs.Prelude.{◌≡◌, [], ◌∷◌, take};
ghost use Rattle.refusals.specs.declared.Refusal.TheVariants.{WindowSize};
ghost use Rattle.refusals.specs.Refusals.{number, number_of};
ghost use Rattle.lent_tables.specs.Lent.{lent};
ghost use Rattle.model.specs.Book.{watchful_answer, out_of_range, watch_answer, end_answer};
ghost use Rattle.model.specs.Promises.{Watched, Ended};
ghost use Rattle.call_watching.specs.Judged.{WatchJudged, EndJudged};

use call_judging::{judge_watchful, out_of_range, refuse_if, short_output};
use call_looking::window_of;
use head::{Desk, Head, Reply};
use lent_tables::LentTables;
pub use pairing::{pair, unpair};
use refusals::Refusal;
use table_listing::Follower;
use watch_numbers::{WatchReply, find, full, insert, remove};

// The answer of a watch or its end before the watches are searched: 3, 11, 12, 5.
fn judge_watch_size(
    head: Head,
    n: u32,
    tables: &LentTables<'_>,
    watches: [u64; 8],
    records: usize,
) -> Result<(), Refusal>
    ensures { number_of result ≡ watchful_answer head (lent tables.now) (take records watches)
        ((out_of_range head n, number WindowSize) ∷ []) }
{
    judge_watchful(head, tables, watches, records)?;
    refuse_if(out_of_range(head, n), Refusal::WindowSize)
}

// The answer of the end of a desk's watch of n.
fn judge_end(
    head: Head,
    desk: Desk,
    n: u32,
    tables: &LentTables<'_>,
    watches: [u64; 8],
    records: usize,
) -> Result<(), Refusal>
    ensures { number_of result ≡ end_answer head desk n (lent tables.now) (take records watches) }
{
    judge_watch_size(head, n, tables, watches, records)?;
    refuse_if(!find(watches, desk, n), Refusal::NotWatched)
}

// The answer of a desk's watch of n with an output of this length.
fn judge_watch(
    head: Head,
    desk: Desk,
    n: u32,
    tables: &LentTables<'_>,
    watches: [u64; 8],
    records: usize,
    room: usize,
) -> Result<(), Refusal>
    ensures { number_of result ≡ watch_answer head desk n (lent tables.now) (take records watches) room }
{
    judge_watch_size(head, n, tables, watches, records)?;
    refuse_if(find(watches, desk, n), Refusal::AlreadyWatched)?;
    refuse_if(full(desk, watches), Refusal::NoFreeRecord)?;
    refuse_if(short_output(room), Refusal::ShortOutput)
}

// Sets a desk's watch of n but for the watches: writes a join for each position of its list. Where it is accepted, n is to be inserted.
pub fn set_watch(
    head: Head,
    desk: Desk,
    n: u32,
    tables: &LentTables<'_>,
    watches: [u64; 8],
    records: usize,
    out: &mut [u8],
) -> Reply
    ensures { WatchJudged head desk n (lent tables.now) (take records watches) out.old result out.new }
{
    if let Err(refusal) = judge_watch(head, desk, n, tables, watches, records, out.len()) {
        return Reply::refused(refusal, head);
    }
    let window = window_of(head, 1, n, tables);
    let count = window.write_joins(Follower::Watch(desk, n as u16), out);
    Reply::accepted(head, count)
}

// Ends a desk's watch of n but for the watches. Where it is accepted, n is to be removed.
pub fn end_watch(
    head: Head,
    desk: Desk,
    n: u32,
    tables: &LentTables<'_>,
    watches: [u64; 8],
    records: usize,
) -> Reply
    ensures { EndJudged head desk n (lent tables.now) (take records watches) result }
{
    match judge_end(head, desk, n, tables, watches, records) {
        Ok(()) => Reply::accepted(head, 0),
        Err(refusal) => Reply::refused(refusal, head),
    }
}

// Sets a desk's watch of n among eight and writes a join for each position of its list; hands back how many bytes.
pub fn watch(
    head: Head,
    desk: Desk,
    n: u32,
    tables: &LentTables<'_>,
    watches: [u64; 8],
    out: &mut [u8],
) -> WatchReply
    ensures { Watched head desk n (lent tables.now) watches out.old result.reply result.watches out.new }
{
    let reply = set_watch(head, desk, n, tables, watches, 8, out);
    if let Err(_) = reply.answer {
        return WatchReply { reply, watches };
    }
    WatchReply {
        reply,
        watches: insert(watches, desk, n),
    }
}

// Ends a desk's watch of n among eight.
pub fn end(head: Head, desk: Desk, n: u32, tables: &LentTables<'_>, watches: [u64; 8]) -> WatchReply
    ensures { Ended head desk n (lent tables.now) watches result.reply result.watches }
{
    let reply = end_watch(head, desk, n, tables, watches, 8);
    if let Err(_) = reply.answer {
        return WatchReply { reply, watches };
    }
    WatchReply {
        reply,
        watches: remove(watches, desk, n),
    }
}
