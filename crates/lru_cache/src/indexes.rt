// The index of a cache row, and the row again from its index.
ghost use Rattle.std.specs.Prelude.{◌≡◌, ◌+◌, ◌-◌, ◌*◌, ◌≤◌, ◌++◌, length, drop, replicate};
ghost use Rattle.recency.specs.Row as recent;
ghost use Rattle.recency.specs.Sound.{Sound};
ghost use Rattle.lru_cache.specs.Rows.{cached, row_of};
ghost use Rattle.lru_cache.specs.Promises.{Checked, Indexed};

// Makes the index of a checked cache row of capacity k with n pages, whatever the index row held.
pub fn open(cache: &[u64], index: &mut [u64], k: usize, n: usize)
    requires checked { Checked cache.now (length index.old) k n }
    ensures after { Indexed k (cached cache.now) index.old index.new }
{
    recency::clear(index, k);
    for &page in cache[2..2 + n].iter().rev() {
        recency::fill(index, k, page);
    }
}

// Writes what the index of capacity k holds into as many places, with 0 in the free ones, and says how much that is.
fn put(places: &mut [u64], index: &[u64], k: usize) -> usize
    requires sound { Sound k index.now }
    requires places { length places.old ≡ k }
    ensures value { result ≡ length (recent.pages index.now) }
    ensures after { places.new ≡ recent.pages index.now ++ replicate (k - length (recent.pages index.now)) 0 }
{
    places.fill(0);
    recency::list(index, k, places)
}

// Writes the cache row of capacity k from its index.
pub fn close(cache: &mut [u64], index: &[u64], k: usize)
    requires sound { Sound k index.now }
    requires long { 2 + k ≤ length cache.old }
    ensures after { cache.new ≡ row_of k (recent.pages index.now) (drop (2 + k) cache.old) }
{
    let n = put(&mut cache[2..2 + k], index, k);
    cache[0] = k as u64;
    cache[1] = n as u64;
}
