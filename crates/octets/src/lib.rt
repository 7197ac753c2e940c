// Numbers in bytes, the low byte first: read at a place, stored from a place on, and laid behind a kind over the front of an output.
#![tactic(auto)]

ghost use Rattle.std.specs.Prelude.{◌≡◌, ◌+◌, ◌≤◌, ◌∷◌, ◌++◌, length};
ghost use Rattle.lists.specs.Lists.{laid};
ghost use Rattle.octets.specs.Bytes.{bytes2, bytes4, number2, number4};
ghost use Rattle.octets.specs.Placed.{placed};

// The number in the two bytes from a place on. Two widths are two functions, here and below: `from_le_bytes` and `to_le_bytes` belong to the
// types of numbers and to no trait, so one generic function would need a trait of its own and two impls.
#[tactic(auto, unfolding(crate::specs::Bytes::number2))]
pub fn two_at(tape: &[u8], at: usize) -> u16
    requires { at + 2 ≤ length tape.now }
    ensures { result ≡ number2 tape.now at }
{
    u16::from_le_bytes([tape[at], tape[at + 1]])
}

// The number in the four bytes from a place on.
#[tactic(auto, unfolding(crate::specs::Bytes::number4))]
pub fn four_at(tape: &[u8], at: usize) -> u32
    requires { at + 4 ≤ length tape.now }
    ensures { result ≡ number4 tape.now at }
{
    u32::from_le_bytes([tape[at], tape[at + 1], tape[at + 2], tape[at + 3]])
}

// Stores the two bytes of a number from a place on.
#[tactic(auto, unfolding(crate::specs::Bytes::bytes2, crate::specs::Placed::placed, lists::specs::Lists::laid))]
pub fn put_two(n: u16, at: usize, out: &mut [u8])
    requires { at + 2 ≤ length out.old }
    ensures { out.new ≡ placed (bytes2 n) at out.old }
{
    out[at..at + 2].copy_from_slice(&n.to_le_bytes());
}

// Stores the four bytes of a number from a place on.
#[tactic(auto, unfolding(crate::specs::Bytes::bytes4, crate::specs::Placed::placed, lists::specs::Lists::laid))]
pub fn put_four(n: u32, at: usize, out: &mut [u8])
    requires { at + 4 ≤ length out.old }
    ensures { out.new ≡ placed (bytes4 n) at out.old }
{
    out[at..at + 4].copy_from_slice(&n.to_le_bytes());
}

// Lays a kind and a number of two bytes behind it.
#[tactic(auto, unfolding(crate::specs::Bytes::bytes2, crate::specs::Placed::placed, lists::specs::Lists::laid))]
pub fn lay_number(kind: u8, n: u16, out: &mut [u8])
    requires { 3 ≤ length out.old }
    ensures { out.new ≡ laid (kind ∷ bytes2 n) out.old }
{
    out[0] = kind;
    put_two(n, 1, out);
}

// Lays a kind and a position of four bytes behind it.
#[tactic(auto, unfolding(crate::specs::Bytes::bytes4, crate::specs::Placed::placed, lists::specs::Lists::laid))]
pub fn lay_position(kind: u8, position: u32, out: &mut [u8])
    requires { 5 ≤ length out.old }
    ensures { out.new ≡ laid (kind ∷ bytes4 position) out.old }
{
    out[0] = kind;
    put_four(position, 1, out);
}

// Lays a kind, a number of two bytes behind it, then a position of four.
#[tactic(auto, unfolding(crate::specs::Bytes::bytes2, crate::specs::Placed::placed, lists::specs::Lists::laid))]
pub fn lay_change(kind: u8, n: u16, position: u32, out: &mut [u8])
    requires { 7 ≤ length out.old }
    ensures { out.new ≡ laid (kind ∷ (bytes2 n ++ bytes4 position)) out.old }
{
    lay_number(kind, n, out);
    put_four(position, 3, out);
}
