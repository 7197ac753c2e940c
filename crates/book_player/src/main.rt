// The book player: makes the calls that the lines of standard input ask for on real buffers, and prints what was seen
// of each.
#![tactic(auto)]

use head::Head;
use player_calls::write;
use player_lines::{Command, Input};
use player_output::Page;
use player_print::print_line;
use player_reads::{read, set};
use player_state::{Seen, State};
use streams::Outlet;

// The head of its eight numbers.
fn head_of(numbers: [u32; 8]) -> Head {
    let [dimensions, capacity, directions, newest, live, held, n1, n2] = numbers;
    Head {
        dimensions,
        capacity,
        directions,
        newest,
        live,
        held,
        n1,
        n2,
    }
}

// What is printed of a line that makes no call: nothing where it could be taken.
fn seen_taken(taken: Option<()>) -> Seen {
    match taken {
        Some(()) => Seen::Nothing,
        None => Seen::Unread,
    }
}

// Does what a line asks for, and answers what is to be printed of it.
fn take_line(state: &mut State, command: Command) -> Seen {
    match command {
        Command::Unread => Seen::Unread,
        Command::Show => Seen::Tables,
        Command::Lend(name, count) => seen_taken(state.loan.lend(name, count)),
        Command::Cell(name, i, n) => seen_taken(state.poke(name, i, n)),
        Command::Head(numbers) => {
            state.head = head_of(numbers);
            Seen::Nothing
        }
        Command::Open(_) | Command::Quote(_) | Command::Both(..) => write(state, command),
        Command::Look(_) | Command::Past(..) | Command::Due | Command::Audit => {
            read(state, command)
        }
        _ => set(state, command),
    }
}

fn main(rt: HostRuntime) {
    let mut state = State::new();
    let mut input = Input::new(rt.stdin());
    let mut page = Page::new(Outlet {
        output: rt.stdout(),
        errors: rt.stderr(),
    });
    let mut number: u32 = 0;
    for _ in 0..u64::MAX {
        match input.next_line() {
            Some(command) => {
                number = number.wrapping_add(1);
                let seen = take_line(&mut state, command);
                print_line(&mut page, number, seen, &state);
            }
            None => {
                page.flush();
                if input.ended || page.failed {
                    break;
                }
                input.read_on(&mut rt.stderr());
            }
        }
        if page.failed {
            break;
        }
    }
}
