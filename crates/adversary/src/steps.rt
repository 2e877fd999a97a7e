// One request after the other: what the policy shows comes in, the next page to request goes out.
ghost use Rattle.std.specs.Prelude.{◌≡◌, ◌+◌, ◌*◌, ◌<◌, ◌≤◌, [], ◌∷◌, ◌++◌, length, IfOk, IfErr, Some, None, MatchResult, OnErr};
ghost use Rattle.adversary.specs.Steps.{refusal_in, if_long, Stepped};

use crate::challenge::Challenge;
use crate::reading::Reading;
use lru_cache::Refusal;
use recency::{LARGEST_ROW, SMALL_CAPACITY, SMALL_ROW};

impl Challenge {
    // A step with two indexes of N numbers of its own. `accept` chooses between two sizes of them as `step` does: of a closure that one
    // function would lend the indexes, a proof knows what it answers, and not what it wrote in the row. Not copied into `step`: there a step of
    // a small policy would touch the stack of the larger indexes, page by page.
    #[inline(never)]
    #[tactic(auto, using(crate::proofs::Chosen::broken_few, crate::proofs::Broken::unasked_none))]
    fn step_apart<const N: usize>(
        self,
        row: &mut [u64],
        shown: &[u64],
    ) -> Result<Challenge, Refusal>
        requires room { 9 * self.k + 5 ≤ N }
        requires size { N ≤ 65536 }
        ensures cases { MatchResult result (λ c. Stepped self row.old shown.now c row.new) (λ e. (if_long self row.old (refusal_in self row.old shown.now) ≡ Some e) × (row.new ≡ row.old)) }
    {
        let reading = Reading::new(self, &*row)?;
        let mut before = [0u64; N];
        let mut seen = [0u64; N];
        reading.refuse(shown, &mut before, &mut seen)?;
        let page = reading.choose(&seen)?;
        self.store(row, shown);
        let mut told = self;
        told.shown = shown.len();
        Ok(told.enter(row, page, &mut seen))
    }

    // The challenge with the next request entered, where the policy shows this after the one before it. That page is its `page`.
    pub fn step(self, row: &mut [u64], shown: &[u64]) -> Result<Challenge, Refusal>
        ensures stepped { IfOk result (λ c. Stepped self row.old shown.now c row.new) }
        ensures refused { IfErr result (λ e. if_long self row.old (refusal_in self row.old shown.now) ≡ Some e) }
        ensures same { OnErr result (row.new ≡ row.old) }
    {
        if self.k <= SMALL_CAPACITY {
            return self.step_apart::<SMALL_ROW>(row, shown);
        }
        self.step_apart::<LARGEST_ROW>(row, shown)
    }
}
