// A quote and look in one, made on a reachable book: the call, and the lines of both laid; or neither is taken, and all is as it was.
#![tactic(auto)]

ghost use Rattle.std.specs.Prelude.{◌≡◌, true, false, [], ◌∷◌, ◌++◌, ◌+◌, ◌≤◌, length, take};
ghost use Rattle.head.specs.Heads.{max_capacity};
ghost use Rattle.lent_tables.specs.Lent.{lent_mut, SameLoan};
ghost use Rattle.model.specs.Changes.{change_room};
ghost use Rattle.call_quoting.specs.Known.{Known};
ghost use Rattle.text.specs.Text.{line, Laid};
ghost use Rattle.line_changes.specs.Printed.{changes_text};
ghost use Rattle.line_answers.specs.Turns.{player};
ghost use Rattle.tape_both.specs.Tried.{step_bytes, BothTried};

use call_quote_looking::both_known;
use head::{Desk, Head, PLACES, Reply};
use lent_tables::LentTablesMut;
use line_answers::{DeskLine, Turn, put_answer, put_changed};
use tape_turns::TurnMade;

// What a quote and look in one came to: whether both are taken, and if so their turn.
#[derive(Clone, Copy)]
pub struct BothTurn {
    pub taken: bool,
    pub made: TurnMade,
}

// Neither is taken.
fn not_taken(head: Head, watches: [u64; 8]) -> BothTurn
    ensures { result.taken ≡ false }
{
    BothTurn {
        taken: false,
        made: TurnMade {
            turn: Turn {
                answer: Ok(()),
                count: 0,
                head,
                watches,
            },
            by: 0,
        },
    }
}

// Lays the lines of a quote and look that were taken in one, and returns how many bytes: the quote's, and behind them that of n and the positions.
fn put_both(reply: Reply, numbers: &[u32], bytes: &[u8], text: &mut [u8]) -> usize
    requires count_in_bounds { (reply.count ≤ length bytes.now) × (length bytes.now ≤ change_room) }
    requires numbers_len_bound { (length numbers.now ≤ 1 + max_capacity) × (step_bytes ≤ length text.old) }
    ensures { Laid
        ((line 81 (reply.head.newest ∷ reply.head.live ∷ []) ++ changes_text (take reply.count bytes.now))
        ++ line 76 numbers.now) text.old result text.new }
{
    let head = reply.head;
    let rows = [head.newest, head.live];
    let quote_line = DeskLine {
        desk: Desk::One,
        letter: b'Q',
        numbers: &rows,
    };
    let quoted = put_changed(Ok(()), &quote_line, bytes, reply.count, text);
    let look_line = DeskLine {
        desk: Desk::One,
        letter: b'L',
        numbers,
    };
    let looked = put_answer(Ok(()), &look_line, &mut text[quoted..]);
    quoted + looked
}

// Makes a quote and look in one, if they stand there, on a reachable book, and lays their lines; where either is refused nothing is done.
pub fn make_both(
    found: bool,
    kind: u8,
    quote: [u32; 6],
    n: u16,
    head: Head,
    tables: &mut LentTablesMut<'_>,
    watches: [u64; 8],
    bytes: &mut [u8],
    text: &mut [u8],
) -> BothTurn
    requires kind_bound { kind ≤ 6 }
    requires bytes_len_bound { (length bytes.old ≤ change_room) × (step_bytes ≤ length text.old) }
    requires known { Known true head (lent_mut tables.old) watches }
    ensures same_loan { SameLoan tables.old tables.new }
    ensures made { BothTried found (take kind quote) n
        (player head (lent_mut tables.old) watches bytes.old) text.old result
        (lent_mut tables.new)
        bytes.new text.new }
{
    if !found {
        return not_taken(head, watches);
    }
    let mut cells = [0u32; PLACES + 1];
    let entered = both_known(
        true,
        head,
        &quote[..kind as usize],
        n as u32,
        tables,
        watches,
        8,
        bytes,
        &mut cells[1..],
    );
    let both = entered.both;
    let reply = both.reply;
    if let Err(_) = reply.answer {
        return not_taken(head, watches);
    }
    cells[0] = n as u32;
    let end = both.listed + 1;
    let count = put_both(reply, &cells[..end], bytes, text);
    BothTurn {
        taken: true,
        made: TurnMade {
            turn: Turn {
                answer: reply.answer,
                count,
                head: reply.head,
                watches,
            },
            by: entered.by,
        },
    }
}
