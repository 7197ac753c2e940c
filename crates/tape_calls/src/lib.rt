// The calls that the frames of a tape ask for, but those that change the tables: each made, and its lines laid.
#![tactic(auto)]

ghost use Rattle.std.specs.Prelude.{List, ℕ, ◌≤◌, length};
ghost use Rattle.lent_tables.specs.Lent.{lent};
ghost use Rattle.model.specs.Changes.{change_room};
ghost use Rattle.model.specs.Calls.{Call};
ghost use Rattle.line_answers.specs.Turns.{text_bytes, player, made, Turned};

use head::{Desk, Head, PLACES};
use lent_tables::LentTables;
use line_answers::{DeskLine, Turn, put_reply, put_reply_changes};

// Makes a look, and lays its line.
pub fn look(head: Head, n: u32, tables: &LentTables<'_>, watches: [u64; 8], text: &mut [u8]) -> Turn
    requires { text_bytes ≤ length text.old }
    ensures { (bytes : List ℕ) → Turned (made (Call.Look n) (player head (lent tables.now) watches bytes))
        text.old result (lent tables.now) bytes text.new }
{
    let mut cells = [0u32; PLACES + 1];
    let reply = call_looking::look(head, n, tables, &mut cells[1..]);
    cells[0] = n;
    let line = DeskLine {
        desk: Desk::One,
        letter: b'L',
        numbers: &cells[..reply.count + 1],
    };
    put_reply(reply, watches, &line, text)
}

// Makes a past look, and lays its line.
pub fn past(
    head: Head,
    n1: u32,
    n2: u32,
    tables: &LentTables<'_>,
    watches: [u64; 8],
    text: &mut [u8],
) -> Turn
    requires { text_bytes ≤ length text.old }
    ensures { (bytes : List ℕ) → Turned (made (Call.Past n1 n2) (player head (lent tables.now) watches bytes))
        text.old result (lent tables.now) bytes text.new }
{
    let mut cells = [0u32; PLACES + 2];
    let reply = call_looking::past(head, n1, n2, tables, &mut cells[2..]);
    cells[0] = n1;
    cells[1] = n2;
    let line = DeskLine {
        desk: Desk::One,
        letter: b'P',
        numbers: &cells[..reply.count + 2],
    };
    put_reply(reply, watches, &line, text)
}

// Sets a desk's watch, and lays its line and its joins.
pub fn watch(
    head: Head,
    desk: Desk,
    n: u32,
    tables: &LentTables<'_>,
    watches: [u64; 8],
    bytes: &mut [u8],
    text: &mut [u8],
) -> Turn
    requires { (length bytes.old ≤ change_room) × (text_bytes ≤ length text.old) }
    ensures { Turned (made (Call.Watch desk n) (player head (lent tables.now) watches bytes.old))
        text.old result (lent tables.now) bytes.new text.new }
{
    let watched = call_watching::watch(head, desk, n, tables, watches, bytes);
    let line = DeskLine {
        desk,
        letter: b'W',
        numbers: &[n],
    };
    put_reply_changes(watched.reply, watched.watches, &line, bytes, text)
}

// Ends a desk's watch, and lays its line.
pub fn end(
    head: Head,
    desk: Desk,
    n: u32,
    tables: &LentTables<'_>,
    watches: [u64; 8],
    text: &mut [u8],
) -> Turn
    requires { text_bytes ≤ length text.old }
    ensures { (bytes : List ℕ) → Turned (made (Call.End desk n) (player head (lent tables.now) watches bytes))
        text.old result (lent tables.now) bytes text.new }
{
    let ended = call_watching::end(head, desk, n, tables, watches);
    let line = DeskLine {
        desk,
        letter: b'U',
        numbers: &[n],
    };
    put_reply(ended.reply, ended.watches, &line, text)
}

// Sets the pair, and lays its line and its joins.
pub fn pair(
    head: Head,
    n1: u32,
    n2: u32,
    tables: &LentTables<'_>,
    watches: [u64; 8],
    bytes: &mut [u8],
    text: &mut [u8],
) -> Turn
    requires { (length bytes.old ≤ change_room) × (text_bytes ≤ length text.old) }
    ensures { Turned (made (Call.Pair n1 n2) (player head (lent tables.now) watches bytes.old))
        text.old result (lent tables.now) bytes.new text.new }
{
    let reply = call_watching::pair(head, n1, n2, tables, watches, 8, bytes);
    let line = DeskLine {
        desk: Desk::One,
        letter: b'B',
        numbers: &[n1, n2],
    };
    put_reply_changes(reply, watches, &line, bytes, text)
}

// Ends the pair, and lays its line.
pub fn unpair(head: Head, tables: &LentTables<'_>, watches: [u64; 8], text: &mut [u8]) -> Turn
    requires { text_bytes ≤ length text.old }
    ensures { (bytes : List ℕ) → Turned (made Call.Unpair (player head (lent tables.now) watches bytes))
        text.old result (lent tables.now) bytes text.new }
{
    let reply = call_watching::unpair(head, tables, watches, 8);
    let line = DeskLine {
        desk: Desk::One,
        letter: b'E',
        numbers: &[],
    };
    put_reply(reply, watches, &line, text)
}
