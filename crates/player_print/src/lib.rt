// What is printed of each line of the book player.
#![tactic(auto)]

use head::{BothReply, Effect, Head, Reply};
use player_output::Page;
use player_state::{Seen, State};
use refusals::Refusal;
use std::io::Write;

// The number of an answer: 0 where it accepts.
fn number(answer: Result<(), Refusal>) -> u32 {
    match answer {
        Ok(()) => 0,
        Err(refusal) => refusal.number(),
    }
}

// The first so many of a list, or all where there are fewer.
fn front<T>(list: &[T], count: usize) -> &[T] {
    &list[..count.min(list.len())]
}

// Prints the reply of a call.
fn put_reply<W: Write, E: Write>(page: &mut Page<W, E>, reply: Reply) {
    let head = reply.head;
    let numbers = [
        number(reply.answer),
        u32::try_from(reply.count).unwrap_or(u32::MAX),
        head.dimensions,
        head.capacity,
        head.directions,
        head.newest,
        head.live,
        head.held,
        head.n1,
        head.n2,
    ];
    page.put_numbers(b'A', &numbers);
}

// Prints the first so many numbers that a call wrote behind an X, where there are any.
fn put_written<W: Write, E: Write, T: Copy + Into<u32>>(
    page: &mut Page<W, E>,
    list: &[T],
    count: usize,
) {
    if 0 < count {
        page.put_numbers(b'X', front(list, count));
    }
}

// Prints a reply with the bytes that were written.
fn put_bytes_reply<W: Write, E: Write>(page: &mut Page<W, E>, reply: Reply, out: &[u8]) {
    put_reply(page, reply);
    put_written(page, out, reply.count);
}

// Prints what a preview hands back: its reply with the bytes that it wrote, and behind them the counts of live and held rows.
fn put_preview<W: Write, E: Write>(page: &mut Page<W, E>, effect: Effect, out: &[u8]) {
    put_bytes_reply(page, effect.reply, out);
    page.put_numbers(b'N', &[effect.live, effect.held]);
}

// Prints what a quote and look in one hands back: its reply with the bytes that it wrote, and behind them the positions.
fn put_both<W: Write, E: Write>(page: &mut Page<W, E>, made: BothReply, state: &State) {
    put_bytes_reply(page, made.reply, &state.out);
    put_written(page, &state.list, made.listed);
}

// Prints the verdict of an audit.
fn put_verdict<W: Write, E: Write>(page: &mut Page<W, E>, verdict: Result<bool, Refusal>) {
    match verdict {
        Ok(true) => page.put_word(b"V yes\n"),
        Ok(false) => page.put_word(b"V no\n"),
        Err(refusal) => page.put_numbers(b'V', &[refusal.number()]),
    }
}

// How many places the tables of a head have: none where its capacity or its dimensions are out of range.
fn places(head: Head) -> usize {
    if Head::fresh(head.dimensions, head.capacity, 0).settings_hold() {
        head.capacity as usize
    } else {
        0
    }
}

// Prints the tables and the records: every n, then every desk.
fn put_tables<W: Write, E: Write>(page: &mut Page<W, E>, state: &State) {
    let n = places(state.head);
    let cells = n.saturating_mul(state.head.dimensions as usize);
    page.put_numbers(b'C', front(&state.tables.columns, cells));
    page.put_numbers(b'P', front(&state.tables.positions, n));
    page.put_numbers(b'E', front(&state.tables.lower_ends, n));
    page.put_numbers(b'U', front(&state.tables.upper_ends, n));
    page.put_numbers(b'W', &state.records.map(|record| record.n));
    page.put_numbers(b'D', &state.records.map(|record| record.desk));
}

// Prints what was seen of the line of a number.
pub fn print_line<W: Write, E: Write>(
    page: &mut Page<W, E>,
    number: u32,
    seen: Seen,
    state: &State,
) {
    match seen {
        Seen::Nothing => {}
        Seen::Unread => page.put_numbers(b'?', &[number]),
        Seen::Bytes(reply) => put_bytes_reply(page, reply, &state.out),
        Seen::Preview(effect) => put_preview(page, effect, &state.out),
        Seen::List(reply, count) => {
            put_reply(page, reply);
            put_written(page, &state.list, count);
        }
        Seen::Both(made) => put_both(page, made, state),
        Seen::Verdict(verdict) => put_verdict(page, verdict),
        Seen::Tables => put_tables(page, state),
    }
}
