// Where in a cache the page stands whose next use is furthest off.
ghost use Rattle.std.specs.Prelude.{◌<◌, length};
ghost use Rattle.belady.specs.Kept.{Latest};

use itertools::Itertools;

// The place of the largest key, and of several the first: the other way round it is the least.
pub(crate) fn latest(keys: &[u64]) -> usize
    requires some { 0 < length keys.now }
    ensures value { Latest keys.now (length keys.now) result }
{
    keys.iter().position_min_by(|a, b| b.cmp(a)).unwrap_or(0)
}
