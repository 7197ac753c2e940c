// The kinds of frames: the shape of each kind's body, and how many bytes follow the kind.
#![tactic(auto)]

ghost use Rattle.std.specs.Prelude.{◌≡◌, ◌≤◌, MatchOption};
ghost use Rattle.frame_kinds.specs.Kinds.{shape_of, has_shape, body_length};

// What stands in the body of a frame: columns; n; n and a position; n1 and n2; nothing; a position; the settings of an opening; or the kind
// is unknown.
#[derive(Clone, Copy, PartialEq)]
pub enum Shape {
    Columns,
    Size,
    SizePosition,
    SizePair,
    Bare,
    Position,
    Settings,
    Unknown,
}

// The highest kind of a quote, and how many columns it has.
pub const MAX_COLUMNS: u8 = 6;

pub const LOOK: u8 = 16;

pub const WATCH: u8 = 17;

pub const UNWATCH: u8 = 18;

pub const WATCH_TWO: u8 = 19;

pub const UNWATCH_TWO: u8 = 20;

pub const PAIR: u8 = 21;

pub const UNPAIR: u8 = 22;

pub const PAST: u8 = 23;

pub const LEAVE: u8 = 32;

pub const JOIN: u8 = 33;

pub const LEAVE_TWO: u8 = 34;

pub const JOIN_TWO: u8 = 35;

pub const PAIR_LEAVE: u8 = 36;

pub const PAIR_JOIN: u8 = 37;

pub const STAMP: u8 = 40;

pub const OPEN: u8 = 48;

// The shape of a kind: a decision by ranges, from the lowest kinds up. No `match`: by one over the kinds, or over ranges of them, it is compiled
// to a table of jumps.
#[tactic(auto, unfolding(crate::specs::Kinds::shape_of, crate::specs::Kinds::shape_in, crate::specs::Kinds::kinds))]
pub fn shape_of(kind: u8) -> Shape
    ensures { result ≡ shape_of kind }
{
    if kind == 0 {
        return Shape::Unknown;
    }
    if kind <= MAX_COLUMNS {
        return Shape::Columns;
    }
    if kind < LOOK {
        return Shape::Unknown;
    }
    if kind <= UNWATCH_TWO {
        return Shape::Size;
    }
    if kind == UNPAIR {
        return Shape::Bare;
    }
    if kind <= PAST {
        return Shape::SizePair;
    }
    if kind < LEAVE {
        return Shape::Unknown;
    }
    if kind <= JOIN_TWO {
        return Shape::SizePosition;
    }
    if kind <= PAIR_JOIN {
        return Shape::Position;
    }
    if kind == STAMP {
        return Shape::Position;
    }
    if kind == OPEN {
        return Shape::Settings;
    }
    Shape::Unknown
}

// Whether a kind has this shape.
#[tactic(auto, unfolding(crate::specs::Kinds::has_shape))]
pub fn has_shape(shape: Shape, kind: u8) -> bool
    ensures { result ≡ has_shape shape kind }
{
    shape_of(kind) == shape
}

// The body length of a kind that has frames, by the shape of its body.
#[tactic(auto, using(crate::proofs::Shapes::quote_kinds), unfolding(crate::specs::Kinds::body_length, crate::specs::Kinds::length_of))]
pub fn known_length(kind: u8) -> Option<u8>
    ensures { MatchOption result (body_length kind ≡ 255) (λ n. (n ≡ body_length kind) × (n ≤ 24)) }
{
    match shape_of(kind) {
        Shape::Columns => Some(4 * kind),
        Shape::Size => Some(2),
        Shape::SizePosition => Some(6),
        Shape::SizePair | Shape::Position | Shape::Settings => Some(4),
        Shape::Bare => Some(0),
        Shape::Unknown => None,
    }
}

// The body length of a kind; 255 for an unknown one, as the definition `body_length` has it, of which the theorems over tapes speak.
pub fn body_length(kind: u8) -> u8
    ensures { result ≡ body_length kind }
{
    known_length(kind).unwrap_or(255)
}
