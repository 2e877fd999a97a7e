// Days that are worked out by hand.
use recency::Outcome::{self, Evicted, Filled, Hit};

// The largest page.
pub const TOP: u64 = 0xffff_ffff;

// Ten requests for five pages.
pub const TEN: [u64; 10] = [1, 2, 3, 1, 4, 1, 2, 5, 3, 1];

// What they find where there are three places and the page used longest ago goes.
pub const TEN_FIND: [Outcome; 10] = [
    Filled,
    Filled,
    Filled,
    Hit,
    Evicted(2),
    Hit,
    Evicted(3),
    Evicted(4),
    Evicted(1),
    Evicted(2),
];

// Pages 1 to 4 three times over.
pub const ROUNDS: [u64; 12] = [1, 2, 3, 4, 1, 2, 3, 4, 1, 2, 3, 4];
