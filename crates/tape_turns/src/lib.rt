// One decision on what a frame asks for: its call is made, and its lines are laid.
#![tactic(auto)]

ghost use Rattle.std.specs.Prelude.{◌≡◌, ℕ, ◌≤◌, length};
ghost use Rattle.tape_asking.specs.declared.Wanted.TheVariants.{Quote};
ghost use Rattle.lent_tables.specs.Lent.{lent_mut, SameLoan};
ghost use Rattle.model.specs.Changes.{change_room};
ghost use Rattle.call_quoting.specs.Known.{Known};
ghost use Rattle.line_answers.specs.Turns.{text_bytes, player};
ghost use Rattle.tape_turns.specs.Making.{frame_taken, taken, Makes};

use call_opening::open;
use call_quoting::quote_known;
use head::Head;
use lent_tables::LentTablesMut;
use line_answers::{Turn, put_opening, put_quote, put_refusal};
use refusals::Refusal;
use tape_asking::Wanted;

// What a call came to, and how many places later the rows begin where none was moved.
#[derive(Clone, Copy)]
pub struct TurnMade {
    pub turn: Turn,
    pub by: usize,
}

// Makes what a frame wants, and lays its lines.
fn make_frame(
    reachable: bool,
    wanted: Wanted,
    quote: [u32; 6],
    head: Head,
    tables: &mut LentTablesMut<'_>,
    watches: [u64; 8],
    bytes: &mut [u8],
    text: &mut [u8],
) -> TurnMade
    requires by_index { (n : ℕ) → wanted ≡ Quote n → n ≤ 6 }
    requires bytes_len_bound { (length bytes.old ≤ change_room) × (text_bytes ≤ length text.old) }
    requires known { Known reachable head (lent_mut tables.old) watches }
    ensures same_loan { SameLoan tables.old tables.new }
    ensures made { Makes reachable (frame_taken wanted quote (player head (lent_mut tables.old) watches bytes.old))
        text.old result (lent_mut tables.new) bytes.new text.new }
{
    let read = tables.to_read();
    match wanted {
        Wanted::Quote(k) => {
            let columns = &quote[..k as usize];
            let entered = quote_known(reachable, head, columns, tables, watches, 8, bytes);
            TurnMade {
                turn: put_quote(entered.reply, watches, bytes, text),
                by: entered.by,
            }
        }
        Wanted::Open(d, n, directions) => {
            let replied = open(d as u32, n as u32, directions as u32, tables, watches, 8);
            TurnMade {
                turn: put_opening(head, d as u32, n as u32, directions as u32, replied, text),
                by: 0,
            }
        }
        Wanted::Look(n) => TurnMade {
            turn: tape_calls::look(head, n as u32, &read, watches, text),
            by: 0,
        },
        Wanted::Past(n1, n2) => TurnMade {
            turn: tape_calls::past(head, n1 as u32, n2 as u32, &read, watches, text),
            by: 0,
        },
        Wanted::Watch(desk, n) => TurnMade {
            turn: tape_calls::watch(head, desk, n as u32, &read, watches, bytes, text),
            by: 0,
        },
        Wanted::End(desk, n) => TurnMade {
            turn: tape_calls::end(head, desk, n as u32, &read, watches, text),
            by: 0,
        },
        Wanted::Pair(n1, n2) => TurnMade {
            turn: tape_calls::pair(head, n1 as u32, n2 as u32, &read, watches, bytes, text),
            by: 0,
        },
        Wanted::Unpair => TurnMade {
            turn: tape_calls::unpair(head, &read, watches, text),
            by: 0,
        },
        Wanted::Misplaced => TurnMade {
            turn: put_refusal(Refusal::OutOfPlace, head, watches, text),
            by: 0,
        },
    }
}

// Makes what stands at a place of a tape, and lays its lines: what a frame wants, nothing at the end, or why it cannot be read.
pub fn make(
    reachable: bool,
    wanted: Result<Option<Wanted>, Refusal>,
    quote: [u32; 6],
    head: Head,
    tables: &mut LentTablesMut<'_>,
    watches: [u64; 8],
    bytes: &mut [u8],
    text: &mut [u8],
) -> TurnMade
    requires by_index { (n : ℕ) → wanted ≡ Ok (Some (Quote n)) → n ≤ 6 }
    requires bytes_len_bound { (length bytes.old ≤ change_room) × (text_bytes ≤ length text.old) }
    requires known { Known reachable head (lent_mut tables.old) watches }
    ensures same_loan { SameLoan tables.old tables.new }
    ensures made { Makes reachable (taken wanted quote (player head (lent_mut tables.old) watches bytes.old)) text.old
        result (lent_mut tables.new) bytes.new text.new }
{
    match wanted {
        Ok(Some(frame)) => make_frame(reachable, frame, quote, head, tables, watches, bytes, text),
        Ok(None) => TurnMade {
            turn: Turn {
                answer: Ok(()),
                count: 0,
                head,
                watches,
            },
            by: 0,
        },
        Err(refusal) => TurnMade {
            turn: put_refusal(refusal, head, watches, text),
            by: 0,
        },
    }
}
