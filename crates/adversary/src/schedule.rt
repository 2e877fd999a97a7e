// The schedule beside the policy, read at the end of a round.
ghost use Rattle.std.specs.Prelude.{◌≡◌, ◌+◌, ◌*◌, ◌<◌, ◌≤◌, true, false, ◌++◌, length, if◌then◌else◌, MatchOption};
ghost use Rattle.paging.specs.Adversary.{held};
ghost use Rattle.adversary.specs.Beside.{ended, news_of, new_at, cache_in, written};

use crate::challenge::Challenge;
use rows::write_at;

// Writes the schedule's cache after a new page, where this is its list at the end of the round: the page, and what stands below it in the
// list. Says how many pages that are.
fn write_held(list: &[u64], page: u64, out: &mut [u64]) -> usize
    ensures value { result ≡ length (held list.now page) }
    ensures after { out.new ≡ written out.old (held list.now page) }
{
    write_at(out, 0, page);
    // Counted by hand: `write_at` takes a place by its number, since of what is written through `get_mut` or `zip` nothing is known.
    let mut n = 1;
    for other in list {
        if *other < page {
            write_at(out, n, *other);
            n += 1;
        }
    }
    n
}

impl Challenge {
    // How many new pages the round had that was just ended; the opening had h.
    fn news(self) -> usize
        ensures value { result ≡ news_of self }
        ensures some { 1 ≤ result }
        ensures few { result ≤ self.k }
    {
        if self.next == self.h as u64 + 1 {
            return self.h;
        }
        self.k + 1 - self.h
    }

    // The new page requested last when request i of the round was served, from 0 on.
    fn new_at(self, i: usize) -> u64
        ensures value { result ≡ new_at self i }
    {
        let news = self.news();
        let first = self.next.saturating_sub(news as u64);
        first + i.min(news - 1) as u64
    }

    // At the end of the opening or of a round: writes the schedule's cache after its request i, from 0 on, as far as `out` goes, and says
    // how many pages that are. The schedule fetches the new pages alone, so after the last of them its cache stays.
    pub fn cache_beside(self, row: &[u64], i: usize, out: &mut [u64]) -> Option<usize>
        ensures cases { MatchOption result (ended self row.now ≡ false) (λ n. (ended self row.now ≡ true) × (n ≡ length (cache_in self row.now i))) }
        ensures after { out.new ≡ (if ended self row.now then written out.old (cache_in self row.now i) else out.old) }
    {
        if row.len() < self.row_len() || self.listed != self.h || self.picks != 0 {
            return None;
        }
        Some(write_held(&row[..self.listed], self.new_at(i), out))
    }
}
