// The head of a book with its limits, the records of its watches, what the calls and the audit hand back, and how long buffers are that
// suffice.
#![tactic(auto)]

mod replies;
mod sizes;

ghost use Rattle.std.specs.Prelude.{◌≡◌};
ghost use Rattle.skyline.specs.Skyline.{window_start};
ghost use Rattle.head.specs.Heads.{fresh_head, settings_hold, after_quote, with_pair, torn_pair};

pub use replies::{BothReply, Effect, Reply};
pub use sizes::{CHANGE_BYTES, CHANGE_FRAME, COLUMN_CELLS, PAIR_FRAME, PLACES, WATCHES};

// The head of a book: its settings (01: d, N, directions), the newest position (01: M), the numbers of live rows
// and of all rows held, and the pair whose past list is watched, 0 and 0 when unset.
#[derive(Clone, Copy)]
pub struct Head {
    pub dimensions: u32,
    pub capacity: u32,
    pub directions: u32,
    pub newest: u32,
    pub live: u32,
    pub held: u32,
    pub n1: u32,
    pub n2: u32,
}

// A desk: of whom a watch is.
#[derive(Clone, Copy)]
pub enum Desk {
    One,
    Two,
}

// One record of the watch list: n and the number of its desk, 0 and 0 where it is empty.
#[derive(Clone, Copy)]
pub struct Watch {
    pub n: u32,
    pub desk: u32,
}

impl Head {
    pub const MAX_DIMENSIONS: u32 = 6;

    pub const MAX_CAPACITY: u32 = 1024;

    pub const MAX_POSITION: u32 = 16777215;

    // The head of a book that has just been opened with these settings.
    pub fn fresh(dimensions: u32, capacity: u32, directions: u32) -> Head
        ensures { result ≡ fresh_head dimensions capacity directions }
    {
        Head {
            dimensions,
            capacity,
            directions,
            newest: 0,
            live: 0,
            held: 0,
            n1: 0,
            n2: 0,
        }
    }

    // Whether the settings are within the limits.
    #[tactic(auto, unfolding(crate::specs::Heads::settings_hold))]
    pub fn settings_hold(self) -> bool
        ensures { result ≡ settings_hold self.dimensions self.capacity self.directions }
    {
        let d = self.dimensions;
        let n = self.capacity;
        (1 <= d) & (d <= Head::MAX_DIMENSIONS) & (1 <= n) & (n <= Head::MAX_CAPACITY)
            && self.directions >> d == 0
    }

    // The first position of the window of n.
    #[tactic(auto, unfolding(skyline::specs::Skyline::window_start))]
    pub fn window_start(self, n: u32) -> u64
        ensures { result ≡ window_start self.newest n }
    {
        (u64::from(self.newest) + 1)
            .saturating_sub(u64::from(n))
            .max(1)
    }

    // The head after an accepted quote that leaves this many live rows and rows held; at the last position no quote is taken.
    #[tactic(auto, unfolding(crate::specs::Heads::after_quote))]
    pub fn after_quote(self, live: u32, held: u32) -> Head
        ensures { result ≡ after_quote self live held }
    {
        let newest = self.newest;
        if Head::MAX_POSITION <= newest {
            return self;
        }
        Head {
            newest: newest + 1,
            live,
            held,
            ..self
        }
    }

    // The head after the pair was set to n1 and n2, or ended, which sets it to 0 and 0.
    #[tactic(auto, unfolding(crate::specs::Heads::with_pair))]
    pub fn after_watch(self, n1: u32, n2: u32) -> Head
        ensures { result ≡ with_pair self n1 n2 }
    {
        Head { n1, n2, ..self }
    }

    // Whether a pair stands that could not be set.
    #[tactic(auto, unfolding(crate::specs::Heads::torn_pair))]
    pub fn torn_pair(self) -> bool
        ensures { result ≡ torn_pair self }
    {
        let unset = (self.n1 == 0) & (self.n2 == 0);
        let set = (2 <= self.n1) & (self.n1 <= self.n2) & (self.n2 <= self.capacity);
        !(unset | set)
    }
}
