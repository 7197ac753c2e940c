// The judgements that the calls begin with: settings (3), lengths (11), torn (12), on shared slices.
#![tactic(auto)]

ghost use Rattle.std.specs.Prelude.{◌≡◌, not, [], ◌∷◌, ltb, take};
ghost use Rattle.refusals.specs.declared.Refusal.TheVariants.{Settings};
ghost use Rattle.head.specs.Heads.{settings_hold};
ghost use Rattle.refusals.specs.Refusals.{number, number_of, first_of};
ghost use Rattle.model.specs.Changes.{change_room};
ghost use Rattle.model.specs.Book.{short_tables, answer_of, watchful_answer, out_of_range};
ghost use Rattle.lent_tables.specs.Lent.{lent};
ghost use Rattle.call_judging.specs.Answers.{loan_answer, rows_answer};

use head::{CHANGE_BYTES, Head, WATCHES};
use lent_tables::LentTables;
use refusals::Refusal;
use table_cells::torn_rows;
use watch_numbers::torn;

// Whether a table is shorter than the settings ask.
#[tactic(auto, unfolding(model::specs::Book::short_tables))]
pub fn short_tables(head: Head, tables: &LentTables<'_>) -> bool
    ensures { result ≡ short_tables (lent tables.now) head.dimensions head.capacity }
{
    let n = head.capacity as usize;
    let cells = n * (head.dimensions as usize);
    (tables.columns.len() < cells)
        | (tables.positions.len() < n)
        | (tables.lower_ends.len() < n)
        | (tables.upper_ends.len() < n)
}

// Whether n is 0 or above the capacity.
#[tactic(auto, unfolding(model::specs::Book::out_of_range))]
pub fn out_of_range(head: Head, n: u32) -> bool
    ensures { result ≡ out_of_range head n }
{
    !((1 <= n) & (n <= head.capacity))
}

// Whether an output is shorter than each call that writes changes asks for, however few it writes.
pub fn short_output(room: usize) -> bool
    ensures { result ≡ ltb room change_room }
{
    room < CHANGE_BYTES
}

// Refuses with this refusal if a test holds.
#[tactic(auto, unfolding(refusals::specs::Refusals::first_of))]
pub fn refuse_if(test: bool, refusal: Refusal) -> Result<(), Refusal>
    ensures { number_of result ≡ first_of ((test, number refusal) ∷ []) }
{
    if test { Err(refusal) } else { Ok(()) }
}

// The answer of a call by its head's settings: 3.
pub fn judge_settings(head: Head) -> Result<(), Refusal>
    ensures { number_of result ≡ first_of ((
      not (settings_hold head.dimensions head.capacity head.directions),
      number Settings,
    ) ∷ []) }
{
    refuse_if(!head.settings_hold(), Refusal::Settings)
}

// The answer of a call that is lent the tables and so many watch records, before it reads them: 3, 11.
pub fn judge_loan(head: Head, tables: &LentTables<'_>, records: usize) -> Result<(), Refusal>
    ensures { number_of result ≡ loan_answer head (lent tables.now) records }
{
    judge_settings(head)?;
    let short = short_tables(head, tables);
    refuse_if(short | (records < WATCHES), Refusal::ShortLoan)
}

// The answer of such a call once it has read the tables: 3, 11, 12.
fn judge_rows(head: Head, tables: &LentTables<'_>, records: usize) -> Result<(), Refusal>
    ensures { number_of result ≡ rows_answer head (lent tables.now) records }
{
    judge_loan(head, tables, records)?;
    let rows = torn_rows(head, tables);
    let pair = head.torn_pair();
    refuse_if(rows | pair, Refusal::Torn)
}

// The answer of a call on the tables alone, which asks for no watch record, before what the call adds: 3, 11, 12.
pub fn judge(head: Head, tables: &LentTables<'_>) -> Result<(), Refusal>
    ensures { number_of result ≡ answer_of head (lent tables.now) [] }
{
    judge_rows(head, tables, WATCHES)
}

// The answer of a call on the tables and the watches, by the numbers of the first eight records and how many are lent, before what the
// call adds: 3, 11, 12.
pub fn judge_watchful(
    head: Head,
    tables: &LentTables<'_>,
    watches: [u64; 8],
    records: usize,
) -> Result<(), Refusal>
    ensures { number_of result ≡ watchful_answer head (lent tables.now)
        (take records watches) [] }
{
    judge_rows(head, tables, records)?;
    refuse_if(torn(head.capacity, watches), Refusal::Torn)
}
