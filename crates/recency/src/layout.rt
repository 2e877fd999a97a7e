// How many pages a row is for, and how long it is. It has five numbers for each slot from 0 on: the slot used just before it, the one used just
// after it, its page, the slot behind it in its chain, and where the number stands that leads to it; and then where each of the 4 * k chains
// begins. Slot 0 stands at both ends of the ring and behind every chain: its page is the one that is looked for, its fourth number says how
// many slots hold a page, and its fifth is written and never read.
ghost use Rattle.std.specs.Prelude.{◌≡◌, ◌+◌, ◌*◌, ◌<◌, ◌≤◌, ◌⊎◌, MatchOption};
ghost use Rattle.recency.specs.Row.{length_for};

// The largest capacity: every row is measured by it.
pub const MAX_CAPACITY: usize = 4096;

// A small capacity: where a row is made for one call, this one is enough for most, and costs less to clear than the largest.
pub const SMALL_CAPACITY: usize = 64;

// How many numbers a row for a small capacity has, and one for the largest. A constant calls no function, so the length is written out.
pub const SMALL_ROW: usize = 9 * SMALL_CAPACITY + 5;

pub const LARGEST_ROW: usize = 9 * MAX_CAPACITY + 5;

// A capacity: how many pages a row is for, 1 to 4,096.
#[derive(Clone, Copy, Debug, PartialEq, Eq)]
pub struct Capacity {
    pub places: usize,
    pub ghost some: { 1 ≤ places },
    pub ghost most: { places ≤ 4096 },
}

impl Capacity {
    // So many places, where that is a capacity.
    pub fn new(places: usize) -> Option<Capacity>
        ensures cases { MatchOption result ((places ≡ 0) ⊎ (4096 < places)) (λ c. c.places ≡ places) }
    {
        if places == 0 || places > MAX_CAPACITY {
            return None;
        }
        Some(Capacity { places })
    }

    // How many numbers a row for it has.
    pub fn row_len(self) -> usize
        ensures value { result ≡ 9 * self.places + 5 }
    {
        9 * self.places + 5
    }
}

// The same for a number of pages that may be no capacity.
pub fn row_len(k: usize) -> Option<usize>
    ensures value { result ≡ length_for k }
    ensures cases { MatchOption result ((k ≡ 0) ⊎ (4096 < k)) (λ n. (1 ≤ k) × (k ≤ 4096) × (n ≡ 9 * k + 5)) }
{
    Some(Capacity::new(k)?.row_len())
}
