// The state of the book player: a head, eight records, the buffers and how much of each is lent; and what a line changes without a call.
#![tactic(auto)]

mod loan;

ghost use Rattle.std.specs.Prelude.{◌≡◌, ◌≤◌, length, take};

use head::{BothReply, CHANGE_BYTES, COLUMN_CELLS, Effect, Head, PLACES, Reply, Watch};
use lent_tables::{LentTables, LentTablesMut};
pub use loan::Loan;
use player_lines::Name;
use refusals::Refusal;

// What is to be printed of a line: nothing, that it cannot be taken, a reply with bytes, what a preview hands back with
// bytes, a reply with so many cells of a list, what a quote and look in one hands back with both, a verdict, or the tables.
#[derive(Clone, Copy)]
pub enum Seen {
    Nothing,
    Unread,
    Bytes(Reply),
    Preview(Effect),
    List(Reply, usize),
    Both(BothReply),
    Verdict(Result<bool, Refusal>),
    Tables,
}

// What is lent of a buffer: its first cells, so many.
pub fn first<T>(buffer: &mut [T], count: usize) -> &mut [T]
    requires { count ≤ length buffer.old }
    ensures { result.now ≡ take count buffer.old }
{
    &mut buffer[..count]
}

// The four tables.
#[derive(Clone, Copy)]
pub struct Tables {
    pub columns: [u32; COLUMN_CELLS],
    pub positions: [u32; PLACES],
    pub lower_ends: [u32; PLACES],
    pub upper_ends: [u32; PLACES],
}

impl Tables {
    // What is lent of the tables, to read.
    pub fn lent(&self, loan: Loan) -> LentTables<'_>
        ensures columns { result.columns.now ≡ take loan.columns self.now.columns }
        ensures positions { result.positions.now ≡ take loan.positions self.now.positions }
        ensures lower_ends { result.lower_ends.now ≡ take loan.lower_ends self.now.lower_ends }
        ensures upper_ends { result.upper_ends.now ≡ take loan.upper_ends self.now.upper_ends }
    {
        LentTables {
            columns: &self.columns[..loan.columns],
            positions: &self.positions[..loan.positions],
            lower_ends: &self.lower_ends[..loan.lower_ends],
            upper_ends: &self.upper_ends[..loan.upper_ends],
        }
    }

    // What is lent of the tables, to write.
    pub fn lent_mut(&mut self, loan: Loan) -> LentTablesMut<'_>
        ensures columns { result.columns.now ≡ take loan.columns self.old.columns }
        ensures positions { result.positions.now ≡ take loan.positions self.old.positions }
        ensures lower_ends { result.lower_ends.now ≡ take loan.lower_ends self.old.lower_ends }
        ensures upper_ends { result.upper_ends.now ≡ take loan.upper_ends self.old.upper_ends }
    {
        let Tables {
            columns,
            positions,
            lower_ends,
            upper_ends,
        } = self;
        LentTablesMut {
            columns: &mut columns[..loan.columns],
            positions: &mut positions[..loan.positions],
            lower_ends: &mut lower_ends[..loan.lower_ends],
            upper_ends: &mut upper_ends[..loan.upper_ends],
        }
    }
}

// The head for the next call, the records, the tables, the output, the list that a look writes, and how much of these is lent.
#[derive(Clone, Copy)]
pub struct State {
    pub head: Head,
    pub records: [Watch; 8],
    pub tables: Tables,
    pub out: [u8; CHANGE_BYTES],
    pub list: [u32; CHANGE_BYTES],
    pub loan: Loan,
}

impl State {
    // The state before the first line: a head of zeros, no watches, every buffer lent whole.
    pub fn new() -> State {
        State {
            head: Head::fresh(0, 0, 0),
            records: [Watch { n: 0, desk: 0 }; 8],
            tables: Tables {
                columns: [0; COLUMN_CELLS],
                positions: [0; PLACES],
                lower_ends: [0; PLACES],
                upper_ends: [0; PLACES],
            },
            out: [0; CHANGE_BYTES],
            list: [0; CHANGE_BYTES],
            loan: Loan::whole(),
        }
    }

    // Takes the head of a reply with bytes.
    pub fn replied(&mut self, reply: Reply) -> Seen
        ensures { self.new.head ≡ reply.head }
    {
        self.head = reply.head;
        Seen::Bytes(reply)
    }

    // Sets a cell of a table, the n of a record or its desk; none where there is no such cell.
    pub fn poke(&mut self, name: Name, i: usize, n: u32) -> Option<()> {
        match name {
            Name::Columns => *self.tables.columns.get_mut(i)? = n,
            Name::Positions => *self.tables.positions.get_mut(i)? = n,
            Name::LowerEnds => *self.tables.lower_ends.get_mut(i)? = n,
            Name::UpperEnds => *self.tables.upper_ends.get_mut(i)? = n,
            Name::Watches => self.records.get_mut(i)?.n = n,
            Name::Desks => self.records.get_mut(i)?.desk = n,
            Name::Out | Name::Cells => return None,
        }
        Some(())
    }
}
