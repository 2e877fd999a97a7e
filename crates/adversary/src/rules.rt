// Whether what a policy shows after a request keeps the rules of a cache.
ghost use Rattle.std.specs.Prelude.{◌≡◌, ◌≤◌, [], ◌∷◌, length, Some, None, MatchResult};
ghost use Rattle.paging.specs.Lists.{has};
ghost use Rattle.recency.specs.Row as recent;
ghost use Rattle.recency.specs.Sound.{Sound};
ghost use Rattle.adversary.specs.Rules.{first_odd, Marks};
ghost use Rattle.adversary.specs.Steps.{told};

use crate::challenge::Challenge;
use lru_cache::Refusal;
use recency::Outcome;

impl Challenge {
    // Whether a page may be shown: it was just requested, or shown before.
    fn allows(self, before: &[u64], page: u64) -> bool
        requires sound { Sound self.k before.now }
        ensures value { result ≡ has (self.last ∷ recent.pages before.now) page }
    {
        page == self.last || recency::contains(before, self.k, page)
    }

    // Refuses the first page shown that equals one before it or is not allowed. Where there is none, `seen` has the pages marked.
    pub(crate) fn refuse_odd(
        self,
        shown: &[u64],
        before: &[u64],
        seen: &mut [u64],
    ) -> Result<(), Refusal>
        requires few { length shown.now ≤ self.k }
        requires marked { Sound self.k before.now }
        requires clear { Marks self.k seen.old [] }
        ensures cases { MatchResult result (λ _. (first_odd 0 [] (self.last ∷ recent.pages before.now) shown.now ≡ None) × Marks self.k seen.new shown.now) (λ e. told (first_odd 0 [] (self.last ∷ recent.pages before.now) shown.now) None ≡ Some e) }
    {
        for (i, page) in shown.iter().enumerate() {
            if !self.allows(before, *page)
                || recency::request(seen, self.k, *page) == Outcome::Hit
            {
                return Err(Refusal::BrokenRule(i as u64));
            }
        }
        Ok(())
    }
}
