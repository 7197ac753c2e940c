// The quoting drill for people: reads two hands from files of quote frames, and prints `yes place`, `no` or `R number`.
#![tactic(auto)]

ghost use Rattle.std.specs.Prelude.{◌≤◌, IfSome, length};

use drill_hands::{drill_files, put_outcome, rules_in};
use drill_turns::Rules;
use std::env::Env;
use std::io::Write;
use std::rt::Files;
use streams::{Outlet, say_failure};

// How many bytes of a file are read; a file that has as many or more is no hand.
const MOST: usize = 65536;

// The most bytes of one of the first four arguments.
const WORD: usize = 16;

// Says how the program is used.
fn say_usage<E: Write>(errors: &mut E) {
    let _ = errors.write_all(b"usage: quoting_drill D N DIRECTIONS n FIRST SECOND\n");
}

// The rules that the first four arguments say, each of at most 16 bytes; they are laid in a line, a space before each.
fn rules<V: Env>(env: &V) -> Option<Rules> {
    let mut line = [b' '; 80];
    let mut used = 0;
    for i in 1..5 {
        line[used] = b' ';
        let start = used + 1;
        used = start + env.arg(i, &mut line[start..start + WORD]).ok()?;
    }
    rules_in(&line[..used])
}

// Reads a file of this name, and returns how many bytes; what cannot be read, or is too long, is said on the stream of errors.
fn read_named<R: Files, E: Write>(
    name: &[u8],
    bytes: &mut [u8; MOST],
    rt: &R,
    errors: &mut E,
) -> Option<usize>
    ensures { IfSome result (λ n. n ≤ 65536) }
{
    let mut file = match streams::files::open(rt, name) {
        Ok(file) => file,
        Err(failure) => {
            say_failure(errors, name, &failure);
            return None;
        }
    };
    let count = streams::read_full(&mut file, bytes);
    if MOST <= count {
        let _ = errors.write_all(b"quoting_drill: a file is too long for a hand\n");
        return None;
    }
    Some(count)
}

// Reads the file that an argument names, and returns how many bytes; what cannot be read, or is too long, is said on the stream of errors.
fn read_file<R: Env + Files, E: Write>(
    i: usize,
    bytes: &mut [u8; MOST],
    rt: &R,
    errors: &mut E,
) -> Option<usize>
    ensures { IfSome result (λ n. n ≤ 65536) }
{
    let mut path = [0u8; 4096];
    match rt.arg(i, &mut path) {
        Ok(length) => read_named(&path[..length], bytes, rt, errors),
        Err(_) => {
            let _ = errors.write_all(b"quoting_drill: the name of a file: File name too long\n");
            None
        }
    }
}

fn main(rt: HostRuntime) {
    let mut outlet = Outlet {
        output: rt.stdout(),
        errors: rt.stderr(),
    };
    if streams::arguments::count(&rt) != 7 {
        say_usage(&mut outlet.errors);
        return;
    }
    let Some(rules) = rules(&rt) else {
        say_usage(&mut outlet.errors);
        return;
    };
    let mut first = [0u8; MOST];
    let Some(mine) = read_file(5, &mut first, &rt, &mut outlet.errors) else {
        return;
    };
    let mut second = [0u8; MOST];
    let Some(theirs) = read_file(6, &mut second, &rt, &mut outlet.errors) else {
        return;
    };
    let outcome = drill_files(rules, &first[..mine], &second[..theirs]);
    let mut text = [0u8; 16];
    let count = put_outcome(outcome, &mut text).min(text.len());
    streams::put_out(
        &mut outlet,
        &text[..count],
        b"quoting_drill: standard output",
    );
}
