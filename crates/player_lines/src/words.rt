// Reading a line: its word, its name, its numbers.
use crate::{Command, Name, Numbers};
use head::Desk;
use line_fields::fields_from;

// The bytes of a line up to its first space, and those from there on.
fn split_word(line: &[u8]) -> (&[u8], &[u8]) {
    let end = line.iter().position(|byte| *byte == b' ');
    line.split_at(end.unwrap_or(line.len()))
}

// Where the seventh field begins, each with a space before it, or the end.
fn seventh_field(fields: &[u8]) -> usize {
    let mut spaces = (0..fields.len()).filter(|at| fields[*at] == b' ');
    spaces.nth(6).unwrap_or(fields.len())
}

// The numbers in fields, each with a space before it, six at a time.
fn read_numbers(fields: &[u8]) -> Option<Numbers> {
    let (first, last) = fields.split_at_checked(seventh_field(fields))?;
    let mut numbers = Numbers::none();
    for part in [first, last] {
        let read = fields_from(part, 0, b' ');
        if !read.valid || read.empty {
            return None;
        }
        for n in read.numbers.iter().take(read.count) {
            numbers.push(*n)?;
        }
    }
    Some(numbers)
}

// What a word names.
fn name_of(word: &[u8]) -> Option<Name> {
    match word {
        b"columns" => Some(Name::Columns),
        b"positions" => Some(Name::Positions),
        b"lower" => Some(Name::LowerEnds),
        b"upper" => Some(Name::UpperEnds),
        b"out" => Some(Name::Out),
        b"cells" => Some(Name::Cells),
        b"watches" => Some(Name::Watches),
        b"desks" => Some(Name::Desks),
        _ => None,
    }
}

// The command that a word says with a name and numbers.
fn named_command(word: &[u8], name: Name, numbers: &[u32]) -> Option<Command> {
    match (word, numbers) {
        (b"lend", [count]) => Some(Command::Lend(name, *count as usize)),
        (b"cell", [i, n]) => Some(Command::Cell(name, *i as usize, *n)),
        _ => None,
    }
}

// The command that a word says with numbers; the calls on desk two's watches have a 2 behind the word.
fn plain_command(word: &[u8], numbers: &[u32]) -> Option<Command> {
    let command = match (word, numbers) {
        (b"open", [dimensions, capacity, directions]) => {
            Command::Open([*dimensions, *capacity, *directions])
        }
        (b"quote", columns) => Command::Quote(Numbers::of(columns)?),
        (b"both", [n, columns @ ..]) => Command::Both(*n, Numbers::of(columns)?),
        (b"preview", columns) => Command::Preview(Numbers::of(columns)?),
        (b"look", [n]) => Command::Look(*n),
        (b"past", [n1, n2]) => Command::Past(*n1, *n2),
        (b"watch", [n]) => Command::Watch(Desk::One, *n),
        (b"watch2", [n]) => Command::Watch(Desk::Two, *n),
        (b"end", [n]) => Command::End(Desk::One, *n),
        (b"end2", [n]) => Command::End(Desk::Two, *n),
        (b"pair", [n1, n2]) => Command::Pair(*n1, *n2),
        (b"unpair", []) => Command::Unpair,
        (b"due", []) => Command::Due,
        (b"audit", []) => Command::Audit,
        (b"head", [a, b, c, d, e, f, g, h]) => Command::Head([*a, *b, *c, *d, *e, *f, *g, *h]),
        (b"show", []) => Command::Show,
        _ => return None,
    };
    Some(command)
}

// The command of a line, by its word and what stands behind it.
fn command_of(word: &[u8], behind: &[u8]) -> Option<Command> {
    match word {
        b"lend" | b"cell" => {
            let (name, numbers) = split_word(behind.get(1..)?);
            named_command(word, name_of(name)?, read_numbers(numbers)?.as_slice())
        }
        _ => plain_command(word, read_numbers(behind)?.as_slice()),
    }
}

// Reads a line, without its newline.
pub fn read_line(line: &[u8]) -> Command {
    let (word, behind) = split_word(line);
    command_of(word, behind).unwrap_or(Command::Unread)
}
