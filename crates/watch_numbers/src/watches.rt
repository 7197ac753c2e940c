// The watches of a book: eight records, each as one number, that are counted, sought, judged, inserted and removed. 0 stands for none, and
// the records stand in front with no gap: this is the format in which a host keeps them, of which the theorems over `torn_watches` speak.
ghost use Rattle.std.specs.Prelude.{◌≡◌, not, take};
ghost use Rattle.lists.specs.Lists.{contains, insert, without, padded};
ghost use Rattle.head.specs.Desks.{watch_of};
ghost use Rattle.watch_numbers.specs.Vacancy.{Vacant};
ghost use Rattle.model.specs.Book.{is_watch, ordered, standing, torn_watches};

use crate::{above_shares, desk_of, size_of, watch_of};
use choices::chosen;
use head::{Desk, Reply};

// What a call that may change the watches hands back: its reply, and the watches after it.
#[derive(Clone, Copy)]
pub struct WatchReply {
    pub reply: Reply,
    pub watches: [u64; 8],
}

// Whether a desk watches n.
pub fn find(watches: [u64; 8], desk: Desk, n: u32) -> bool
    ensures { result ≡ contains (watch_of desk n) (standing watches) }
{
    let watch = watch_of(desk, n);
    watches.contains(&watch)
}

// Whether a record is that of desk one or two, its n from 1 to the capacity.
#[tactic(auto, unfolding(model::specs::Book::is_watch))]
fn is_watch(capacity: u32, watch: u64) -> bool
    ensures { result ≡ is_watch capacity watch }
{
    let desk = desk_of(watch);
    let n = size_of(watch);
    (1 <= desk) & (desk <= 2) & (1 <= n) & (n <= capacity)
}

// Whether the records are not watches that rise, and then empties.
fn disordered(capacity: u32, watches: [u64; 8]) -> bool
    ensures { result ≡ not (ordered 1 capacity (take 8 watches)) }
{
    let mut torn = false;
    let mut ended = false;
    let mut last: u64 = 0;
    for watch in watches {
        torn = torn | ((0 < watch) & (ended | (watch <= last) | !is_watch(capacity, watch)));
        ended = ended | (watch == 0);
        last = watch;
    }
    torn
}

// Whether the records are out of order, or over the desks' shares.
#[tactic(auto, unfolding(model::specs::Book::torn_watches))]
pub fn torn(capacity: u32, watches: [u64; 8]) -> bool
    ensures { result ≡ torn_watches capacity watches }
{
    disordered(capacity, watches) | (2 < above_shares(watches))
}

// The watches with a desk's watch of n put into its place: from there on each moves up by one.
pub fn insert(watches: [u64; 8], desk: Desk, n: u32) -> [u64; 8]
    requires { Vacant watches }
    ensures { result ≡ padded 8 (insert (watch_of desk n) (standing watches)) watches }
{
    let mut after = [0u64; 8];
    let mut carried = watch_of(desk, n);
    for (i, watch) in watches.iter().enumerate() {
        let here = (*watch == 0) | (carried < *watch);
        after[i] = chosen(here, carried, *watch);
        carried = chosen(here, *watch, carried);
    }
    after
}

// The watches without a desk's watch of n, with no gap, and empties behind them.
pub fn remove(watches: [u64; 8], desk: Desk, n: u32) -> [u64; 8]
    ensures { result ≡ padded 8 (without (watch_of desk n) (standing watches)) watches }
{
    let ended = watch_of(desk, n);
    let mut kept = [0u64; 8];
    let mut count: usize = 0;
    for watch in watches {
        let stays = (0 < watch) & (ended != watch);
        if !stays {
            continue;
        }
        kept[count] = watch;
        count += 1;
    }
    kept
}
