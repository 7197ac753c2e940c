// The calls that only read the tables, made on the parts of the buffers that are lent: looks, what is due and the audit, which are lent no
// records; the preview of a quote, and those that set and end watches and the pair, which are.
#![tactic(auto)]

use book_by_value::RecordReply;
use head::Desk;
use player_lines::{Command, Numbers};
use player_state::{Seen, State, first};

// Looks at the list of n.
fn look(state: &mut State, n: u32) -> Seen {
    let loan = state.loan;
    let reply = book::look(
        state.head,
        n,
        &state.tables.lent(loan),
        first(&mut state.list, loan.out),
    );
    Seen::List(reply, reply.count)
}

// Looks at the past list of a pair.
fn past(state: &mut State, n1: u32, n2: u32) -> Seen {
    let loan = state.loan;
    let reply = book::past(
        state.head,
        n1,
        n2,
        &state.tables.lent(loan),
        first(&mut state.list, loan.out),
    );
    Seen::List(reply, reply.count)
}

// Looks at what is due: two cells for each row.
fn due(state: &mut State) -> Seen {
    let loan = state.loan;
    let reply = book::due(
        state.head,
        &state.tables.lent(loan),
        first(&mut state.list, loan.out),
    );
    Seen::List(reply, reply.count.saturating_mul(2))
}

// Audits the tables.
fn audit(state: &State) -> Seen {
    let tables = state.tables.lent(state.loan);
    Seen::Verdict(book_audit::audit(state.head, &tables))
}

// Makes the call of a line that is lent no records, where it asks for one, and answers what is to be printed of it.
pub fn read(state: &mut State, command: Command) -> Seen {
    match command {
        Command::Look(n) => look(state, n),
        Command::Past(n1, n2) => past(state, n1, n2),
        Command::Due => due(state),
        Command::Audit => audit(state),
        _ => Seen::Nothing,
    }
}

// Previews a quote.
fn preview(state: &mut State, columns: Numbers) -> Seen {
    let loan = state.loan;
    let effect = book_by_value::preview(
        state.head,
        columns.as_slice(),
        &state.tables.lent(loan),
        state.records,
        first(&mut state.out, loan.out),
    );
    Seen::Preview(effect)
}

// Takes the records and the head that were handed back.
fn recorded(state: &mut State, made: RecordReply) -> Seen {
    let RecordReply { reply, records } = made;
    state.records = records;
    state.replied(reply)
}

// Sets a desk's watch.
fn watch(state: &mut State, desk: Desk, n: u32) -> Seen {
    let loan = state.loan;
    let made = book_by_value::watch(
        state.head,
        desk,
        n,
        &state.tables.lent(loan),
        state.records,
        first(&mut state.out, loan.out),
    );
    recorded(state, made)
}

// Ends a desk's watch.
fn end(state: &mut State, desk: Desk, n: u32) -> Seen {
    let tables = state.tables.lent(state.loan);
    let made = book_by_value::end(state.head, desk, n, &tables, state.records);
    recorded(state, made)
}

// Sets the watched pair.
fn pair(state: &mut State, n1: u32, n2: u32) -> Seen {
    let loan = state.loan;
    let reply = book_by_value::pair(
        state.head,
        n1,
        n2,
        &state.tables.lent(loan),
        state.records,
        first(&mut state.out, loan.out),
    );
    state.replied(reply)
}

// Ends the watched pair.
fn unpair(state: &mut State) -> Seen {
    let tables = state.tables.lent(state.loan);
    let reply = book_by_value::unpair(state.head, &tables, state.records);
    state.replied(reply)
}

// Makes the call of a line that is lent the records, where it asks for one, and answers what is to be printed of it.
pub fn set(state: &mut State, command: Command) -> Seen {
    match command {
        Command::Preview(columns) => preview(state, columns),
        Command::Watch(desk, n) => watch(state, desk, n),
        Command::End(desk, n) => end(state, desk, n),
        Command::Pair(n1, n2) => pair(state, n1, n2),
        Command::Unpair => unpair(state),
        _ => Seen::Nothing,
    }
}
