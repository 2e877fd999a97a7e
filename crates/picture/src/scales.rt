// Where numbers stand on the picture. Fetches go up from 420 to 90, and places from 80 on the left to 760 on the right.
ghost use Rattle.std.specs.Prelude.{◌≡◌, ◌≤◌};
ghost use Rattle.picture.specs.Scaled.{step, top, edge, middle, height};

// Both axes.
#[derive(Clone, Copy, Debug)]
pub(crate) struct Scale {
    // the number at the top of the axis for fetches, and how far apart the numbers on it are
    pub(crate) top: u64,
    pub(crate) apart: u64,
    // how many places there are
    pub(crate) places: u64,
    ghost low: { 1 ≤ top },
    ghost high: { top ≤ 5096 },
    ghost some_apart: { 1 ≤ apart },
    ghost few_apart: { apart ≤ 1000 },
    ghost some: { 1 ≤ places },
    ghost few: { places ≤ 4096 },
}

// How far apart the numbers on an axis are, so that there are at most five up to n: 1, 2 or 5, or ten or a hundred times as many, or 1000.
pub(crate) fn step(n: u64) -> u64
    ensures value { result ≡ step n }
    ensures low { 1 ≤ result }
    ensures high { result ≤ 1000 }
{
    match n {
        0..=5 => 1,
        6..=10 => 2,
        11..=25 => 5,
        26..=50 => 10,
        51..=100 => 20,
        101..=250 => 50,
        251..=500 => 100,
        501..=1000 => 200,
        1001..=2500 => 500,
        _ => 1000,
    }
}

// The number at the top of the axis for fetches: the first one on it that is n or more, and not 0.
fn top(n: u64) -> u64
    requires small { n ≤ 4096 }
    ensures value { result ≡ top n }
    ensures low { 1 ≤ result }
    ensures high { result ≤ 5096 }
{
    n.max(1).next_multiple_of(step(n))
}

impl Scale {
    // For fetches up to `most`, and so many places.
    pub(crate) fn new(most: u64, places: u64) -> Scale
        requires small { most ≤ 4096 }
        requires some { 1 ≤ places }
        requires few { places ≤ 4096 }
        ensures top_is { result.top ≡ top most }
        ensures apart_is { result.apart ≡ step most }
        ensures places_is { result.places ≡ places }
    {
        Scale {
            top: top(most),
            apart: step(most),
            places,
        }
    }

    // Where the c-th place ends, from the left.
    pub(crate) fn edge(self, c: u64) -> u64
        requires few { c ≤ 10000000 }
        ensures value { result ≡ edge self.places c }
    {
        80 + 680 * c / self.places
    }

    // Where its middle is.
    pub(crate) fn middle(self, c: u64) -> u64
        requires some { 1 ≤ c }
        requires few { c ≤ 10000000 }
        ensures value { result ≡ middle self.places c }
    {
        80 + 340 * (2 * c - 1) / self.places
    }

    // How high n fetches stand, from above. What is more than the axis has stands at its top.
    pub(crate) fn height(self, n: u64) -> u64
        ensures value { result ≡ height self.top n }
    {
        420 - 330 * n.min(self.top) / self.top
    }
}
