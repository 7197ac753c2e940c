// The preview of a quote, by the quote's own stages but the last: it is judged, what it would do to the rows is found, its changes are
// written. The tables and the watches stay.
#![tactic(auto)]

ghost use Rattle.std.specs.Prelude.{◌≡◌, take};
ghost use Rattle.lent_tables.specs.Lent.{lent};
ghost use Rattle.model.specs.Promises.{Previewed};
ghost use Rattle.call_previewing.specs.Effects.{effect_of};

use call_quoting::judge;
use call_settling::find;
use call_writing::{accept, write};
use head::{Effect, Head, PLACES, Reply};
use lent_tables::LentTables;

// What a preview tells of the reply that the quote would give: its answer and count, the head as it came, and how many rows are live and
// held by the reply's head.
pub fn effect_of(came: Head, reply: Reply) -> Effect
    ensures { result ≡ effect_of came reply }
{
    Effect {
        reply: Reply {
            head: came,
            ..reply
        },
        live: reply.head.live,
        held: reply.head.held,
    }
}

// Previews a quote on any tables.
pub fn preview(
    head: Head,
    quote: &[u32],
    tables: &LentTables<'_>,
    watches: [u64; 8],
    records: usize,
    out: &mut [u8],
) -> Effect
    ensures { Previewed head quote.now (lent tables.now) (take records watches) out.old result out.new }
{
    if let Err(refusal) = judge(false, head, quote, tables, watches, records, out.len()) {
        return effect_of(head, Reply::refused(refusal, head));
    }
    let mut places = [0u16; PLACES];
    let found = find(false, head, quote, tables, &mut places);
    let count = write(
        head,
        found,
        &places[found.at..],
        quote,
        tables,
        watches,
        out,
    );
    effect_of(head, accept(head, found, count))
}
