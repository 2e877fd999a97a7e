// A challenge with its row, as they are read before a request is entered.
ghost use Rattle.std.specs.Prelude.{◌≡◌, ◌+◌, ◌*◌, ◌<◌, ◌≤◌, length, Some, None, MatchResult};
ghost use Rattle.lru_cache.specs.declared.refusals.Refusal.TheVariants as refusal;
ghost use Rattle.recency.specs.Row as recent;
ghost use Rattle.recency.specs.Sound.{Sound};
ghost use Rattle.adversary.specs.Places.{asked_in, shown_in, position_in};
ghost use Rattle.adversary.specs.Rules.{broken, Marks};
ghost use Rattle.adversary.specs.Steps.{exhausted, fault_in, Chosen};

use crate::challenge::Challenge;
use lru_cache::{PAGE_LIMIT, Refusal};

// The row is long enough for the challenge.
#[derive(Clone, Copy)]
pub(crate) struct Reading<'a> {
    pub(crate) challenge: Challenge,
    pub(crate) row: &'a [u64],
    ghost long: { 3 * challenge.k + 1 ≤ length row.now },
}

impl<'a> Reading<'a> {
    // A challenge with its row, where that is long enough.
    pub(crate) fn new(challenge: Challenge, row: &'a [u64]) -> Result<Reading<'a>, Refusal>
        ensures cases { MatchResult result (λ r. (r.challenge ≡ challenge) × (r.row.now ≡ row.now)) (λ e. (length row.now < 3 * challenge.k + 1) × (e ≡ refusal.NoCache)) }
    {
        if row.len() < challenge.row_len() {
            return Err(Refusal::NoCache);
        }
        Ok(Reading { challenge, row })
    }
}

impl Reading<'_> {
    // Refuses what breaks the rules: before the first request nothing may be shown. Where nothing does, `seen` has the pages marked.
    pub(crate) fn refuse(
        self,
        shown: &[u64],
        before: &mut [u64],
        seen: &mut [u64],
    ) -> Result<(), Refusal>
        requires before_room { 9 * self.challenge.k + 5 ≤ length before.old }
        requires seen_room { 9 * self.challenge.k + 5 ≤ length seen.old }
        ensures cases { MatchResult result (λ _. (broken self.entry.challenge.k (asked_in self.entry.challenge) (shown_in self.entry.challenge self.entry.row.now) shown.now ≡ None) × Marks self.entry.challenge.k seen.new shown.now) (λ e. fault_in self.entry.challenge self.entry.row.now shown.now ≡ Some e) }
    {
        let c = self.challenge;
        if shown.len() > c.k {
            return Err(Refusal::BrokenRule(shown.len() as u64));
        }
        recency::clear(seen, c.k);
        if !c.is_begun() {
            return if shown.is_empty() {
                Ok(())
            } else {
                Err(Refusal::BrokenRule(0))
            };
        }
        c.mark(before, c.before(self.row));
        c.refuse_odd(shown, before, seen)?;
        if !recency::contains(seen, c.k, c.last) {
            return Err(Refusal::BrokenRule(shown.len() as u64));
        }
        Ok(())
    }

    // The page to request, where the policy shows the pages marked in `seen`.
    pub(crate) fn choose(self, seen: &[u64]) -> Result<u64, Refusal>
        requires sound { Sound self.challenge.k seen.now }
        ensures cases { MatchResult result (λ page. Chosen self.entry.challenge self.entry.row.now (recent.pages seen.now) page) (λ e. exhausted self.entry.challenge.k (position_in self.entry.challenge self.entry.row.now) ≡ Some e) }
    {
        let c = self.challenge;
        if c.listed > c.k {
            let missing = c.first_unmarked(&self.row[..c.listed], seen);
            // One of k + 1 pages is missing in a cache of k. Where the lent row was overwritten none may be: `first_missing` is 0 then.
            return Ok(missing.unwrap_or(0));
        }
        if c.next == PAGE_LIMIT {
            return Err(Refusal::NoPageLeft);
        }
        Ok(c.next)
    }
}
