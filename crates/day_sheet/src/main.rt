// The day sheet of the quote frames on standard input: `day_sheet D DIRECTIONS` prints the letter D and the unbeaten positions, or R and a
// number.
#![tactic(auto)]

ghost use Rattle.std.specs.Prelude.{◌≤◌, length};

use day_frames::day_line;
use line_fields::fields_from;
use std::env::Env;
use std::io::Write;
use streams::Outlet;

// The most positions of a sheet.
const POSITIONS: usize = 4096;

// The cells of the longest day, six columns each.
const CELLS: usize = 6 * POSITIONS;

// As many bytes as the frames of the longest day and one quote more can have: what stands behind them is not read.
const TAPE: usize = (POSITIONS + 1) * 25;

// The bytes of the longest line: a letter, that many fields, and a newline.
const LINE: usize = 2 + 11 * POSITIONS;

// Lays the two arguments into the words, a space before each, and returns where they end; one that is missing or too long leaves nothing.
fn lay_arguments<V: Env>(env: &V, words: &mut [u8]) -> usize
    requires { 64 ≤ length words.old }
    ensures { result ≤ length words.new }
{
    let first = env.arg(1, &mut words[1..32]).unwrap_or(0);
    let at = first + 2;
    words[at - 1] = b' ';
    let second = env.arg(2, &mut words[at..]).unwrap_or(0);
    at + second
}

// The two arguments, columns and directions, where there are two and these are decimal numbers.
fn arguments<V: Env>(env: &V) -> Option<[u32; 6]> {
    if streams::arguments::count(env) != 3 {
        return None;
    }
    let mut words = [b' '; 64];
    let end = lay_arguments(env, &mut words);
    fields_from(&words[..end], 0, b' ').numbers_if(2)
}

fn main(rt: HostRuntime) {
    let mut outlet = Outlet {
        output: rt.stdout(),
        errors: rt.stderr(),
    };
    let Some(numbers) = arguments(&rt) else {
        let _ = outlet
            .errors
            .write_all(b"usage: day_sheet D DIRECTIONS < quote frames\n");
        return;
    };
    let mut tape = [0u8; TAPE];
    let mut cells = [0u32; CELLS];
    let mut out = [0u32; POSITIONS];
    let mut text = [0u8; LINE];
    let count = streams::read_full(&mut rt.stdin(), &mut tape);
    let used = day_line(
        numbers[0],
        numbers[1],
        &tape[..count],
        &mut cells,
        &mut out,
        &mut text,
    );
    streams::put_out(&mut outlet, &text[..used], b"day_sheet: standard output");
}
