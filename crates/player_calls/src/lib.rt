// The calls that write the tables, the opening, the quote and the quote and look in one, made on the parts of the buffers that are lent.
#![tactic(auto)]

use book_by_value::RecordReply;
use player_lines::{Command, Numbers};
use player_state::{Seen, State, first};

// Opens a book. An opening that is refused leaves the head for the next call.
fn open(state: &mut State, settings: [u32; 3]) -> Seen {
    let [dimensions, capacity, directions] = settings;
    let mut tables = state.tables.lent_mut(state.loan);
    let RecordReply { reply, records } = book_by_value::open(
        dimensions,
        capacity,
        directions,
        &mut tables,
        state.records,
    );
    state.records = records;
    if reply.answer.is_ok() {
        state.head = reply.head;
    }
    Seen::Bytes(reply)
}

// Takes a quote.
fn quote(state: &mut State, columns: Numbers) -> Seen {
    let loan = state.loan;
    let reply = book_by_value::quote(
        state.head,
        columns.as_slice(),
        &mut state.tables.lent_mut(loan),
        state.records,
        first(&mut state.out, loan.out),
    );
    state.replied(reply)
}

// Takes a quote and looks at the list of n behind it, in one.
fn both(state: &mut State, n: u32, columns: Numbers) -> Seen {
    let loan = state.loan;
    let made = book_by_value::both(
        state.head,
        columns.as_slice(),
        n,
        &mut state.tables.lent_mut(loan),
        state.records,
        first(&mut state.out, loan.out),
        first(&mut state.list, loan.cells),
    );
    state.head = made.reply.head;
    Seen::Both(made)
}

// Makes the call of a line that writes the tables, where it asks for one, and answers what is to be printed of it.
pub fn write(state: &mut State, command: Command) -> Seen {
    match command {
        Command::Open(settings) => open(state, settings),
        Command::Quote(columns) => quote(state, columns),
        Command::Both(n, columns) => both(state, n, columns),
        _ => Seen::Nothing,
    }
}
