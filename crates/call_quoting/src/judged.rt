// The judgement of a quote, on any tables or on a reachable book.
ghost use Rattle.std.specs.Prelude.{◌≡◌, true, take};
ghost use Rattle.refusals.specs.Refusals.{number_of, first_of};
ghost use Rattle.lent_tables.specs.Lent.{lent};
ghost use Rattle.model.specs.Book.{quote_answer};
ghost use Rattle.model.specs.Calls.{Reached};
ghost use Rattle.model.specs.Promises.{world};
ghost use Rattle.call_quoting.specs.Answers.{quote_tests};

use call_judging::{judge_settings, judge_watchful, refuse_if, short_output};
use head::Head;
use lent_tables::LentTables;
use refusals::Refusal;

// The answer of a quote by the tests of its own and of an output of this length: 4, 6, 13.
fn judge_quote(head: Head, quote: &[u32], room: usize) -> Result<(), Refusal>
    ensures { number_of result ≡ first_of (quote_tests head quote.now room) }
{
    refuse_if(
        quote.len() != head.dimensions as usize,
        Refusal::ColumnCount,
    )?;
    refuse_if(Head::MAX_POSITION <= head.newest, Refusal::TapeFull)?;
    refuse_if(short_output(room), Refusal::ShortOutput)
}

// The answer of a quote with an output of this length. Of a reachable book neither 11 nor 12 is said, so its tables and watches are not
// judged again.
pub fn judge(
    reachable: bool,
    head: Head,
    quote: &[u32],
    tables: &LentTables<'_>,
    watches: [u64; 8],
    records: usize,
    room: usize,
) -> Result<(), Refusal>
    requires { reachable ≡ true → Reached (world head (lent tables.now) (take records watches)) }
    ensures { number_of result ≡ quote_answer head quote.now (lent tables.now) (take records watches) room }
{
    if reachable {
        judge_settings(head)?;
        return judge_quote(head, quote, room);
    }
    judge_watchful(head, tables, watches, records)?;
    judge_quote(head, quote, room)
}
