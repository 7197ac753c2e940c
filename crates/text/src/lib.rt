// Lines of print, laid at the start of a lent text.
#![tactic(auto)]

ghost use Rattle.std.specs.Prelude.{◌≡◌, [], ◌∷◌, ◌+◌, ◌*◌, ◌/◌, ◌≤◌, ◌<◌, length};
ghost use Rattle.text.specs.Text.{digits, field, line, line2, Laid};

// How many decimal digits a number has.
#[tactic(auto, using(crate::proofs::Digits::counted_zero, crate::proofs::Digits::counted_log))]
fn digit_count(n: u32) -> usize
    ensures { result ≡ length (digits n) }
{
    match n.checked_ilog10() {
        None => 1,
        Some(log) => log as usize + 1,
    }
}

// Lays a number in decimal at the start of the text, digit by digit from the last, and returns how many bytes.
#[tactic(auto, using(crate::proofs::Digits::put_start, crate::proofs::Digits::put_more, crate::proofs::Digits::at_most_ten))]
fn put_long(n: u32, text: &mut [u8]) -> usize
    requires { 10 ≤ length text.old }
    ensures { Laid (digits n) text.old result text.new }
{
    let count = digit_count(n);
    let mut rest = n;
    for i in (0..count).rev() {
        text[i] = b'0' + (rest % 10) as u8;
        rest /= 10;
    }
    count
}

// Lays a number below 100 in decimal at the start of the text, and returns how many bytes. Apart from `put_long`, as are hundreds, since a
// line of two numbers below 10,000 takes 137 instructions so, and 156 digit by digit.
fn put_tens(n: u32, text: &mut [u8]) -> usize
    requires n_bound { n < 100 }
    requires in_bounds { 10 ≤ length text.old }
    ensures { Laid (digits n) text.old result text.new }
{
    if n < 10 {
        text[0] = b'0' + n as u8;
        return 1;
    }
    text[0] = b'0' + (n / 10) as u8;
    text[1] = b'0' + (n % 10) as u8;
    2
}

// Lays a number from 100 to 9,999 in decimal at the start of the text, and returns how many bytes.
fn put_hundreds(n: u32, text: &mut [u8]) -> usize
    requires le_n { 100 ≤ n }
    requires n_bound { n < 10000 }
    requires in_bounds { 10 ≤ length text.old }
    ensures { Laid (digits n) text.old result text.new }
{
    let (hundreds, rest) = (n / 100, n % 100);
    let (tens, ones) = (b'0' + (rest / 10) as u8, b'0' + (rest % 10) as u8);
    if hundreds < 10 {
        text[0] = b'0' + hundreds as u8;
        text[1] = tens;
        text[2] = ones;
        return 3;
    }
    text[0] = b'0' + (hundreds / 10) as u8;
    text[1] = b'0' + (hundreds % 10) as u8;
    text[2] = tens;
    text[3] = ones;
    4
}

// Lays a number in decimal at the start of the text, and returns how many bytes.
pub fn put_number(n: u32, text: &mut [u8]) -> usize
    requires { 10 ≤ length text.old }
    ensures { Laid (digits n) text.old result text.new }
{
    if n < 100 {
        put_tens(n, text)
    } else if n < 10000 {
        put_hundreds(n, text)
    } else {
        put_long(n, text)
    }
}

// Lays a space and a number at the start of the text, and returns how many bytes.
#[tactic(auto, using(crate::proofs::Digits::at_most_ten))]
fn put_field(n: u32, text: &mut [u8]) -> usize
    requires { 11 ≤ length text.old }
    ensures { Laid (field n) text.old result text.new }
{
    text[0] = b' ';
    put_number(n, &mut text[1..]) + 1
}

// Lays a line at the start of the text: its letter, its numbers and a newline. Returns how many bytes. In line, so that a line of two numbers is
// laid without a loop.
#[inline(always)]
pub fn put_line(letter: u8, numbers: &[u32], text: &mut [u8]) -> usize
    requires { 2 + 11 * length numbers.now ≤ length text.old }
    ensures { Laid (line letter numbers.now) text.old result text.new }
{
    text[0] = letter;
    let mut at = 1;
    for &n in numbers {
        at += put_field(n, &mut text[at..]);
    }
    text[at] = b'\n';
    at + 1
}

// Lays a line of two letters at the start of the text. Returns how many bytes.
pub fn put_line2(first: u8, second: u8, numbers: &[u32], text: &mut [u8]) -> usize
    requires { 3 + 11 * length numbers.now ≤ length text.old }
    ensures { Laid (line2 first second numbers.now) text.old result text.new }
{
    text[0] = first;
    put_line(second, numbers, &mut text[1..]) + 1
}
