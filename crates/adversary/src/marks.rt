// Pages marked in an index, so that each is looked up in constant time however many there are.
ghost use Rattle.std.specs.Prelude.{◌≡◌, ◌+◌, ◌*◌, ◌≤◌, not, [], ◌∷◌, length, find};
ghost use Rattle.paging.specs.Lists.{has};
ghost use Rattle.recency.specs.Row as recent;
ghost use Rattle.recency.specs.Sound.{Sound};
ghost use Rattle.adversary.specs.Rules.{Marks};

use crate::challenge::Challenge;

impl Challenge {
    // Marks exactly these pages, whatever the index held.
    pub(crate) fn mark(self, index: &mut [u64], pages: &[u64])
        requires room { 9 * self.k + 5 ≤ length index.old }
        requires few { length pages.now ≤ self.k }
        ensures marked { Marks self.k index.new pages.now }
    {
        recency::clear(index, self.k);
        for page in pages {
            recency::request(index, self.k, *page);
        }
    }

    // The first of the pages that is not marked.
    pub(crate) fn first_unmarked(self, pages: &[u64], index: &[u64]) -> Option<u64>
        requires sound { Sound self.k index.now }
        ensures value { result ≡ find (λ page. not (has (recent.pages index.now) page)) pages.now }
    {
        pages
            .iter()
            .copied()
            .find(|page| !recency::contains(index, self.k, *page))
    }
}
