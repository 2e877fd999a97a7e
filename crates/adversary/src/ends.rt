// What is tested after the last request: no page is asked for any more, but what the policy shows is to keep the rules all the same.
ghost use Rattle.std.specs.Prelude.{◌≡◌, ◌+◌, ◌*◌, ◌≤◌, length, IfErr, Some, None, OnOk};
ghost use Rattle.adversary.specs.Places.{asked_in, shown_in};
ghost use Rattle.adversary.specs.Rules.{broken};
ghost use Rattle.adversary.specs.Steps.{fault_in, if_long};

use crate::challenge::Challenge;
use crate::reading::Reading;
use lru_cache::Refusal;
use recency::{LARGEST_ROW, SMALL_CAPACITY, SMALL_ROW};

impl Reading<'_> {
    // Refuses what breaks the rules, with two indexes of N numbers of its own. `accept` chooses N as `step` does: `step_apart` says why, and why
    // it is not copied into its caller.
    #[inline(never)]
    fn refuse_apart<const N: usize>(self, shown: &[u64]) -> Result<(), Refusal>
        requires room { 9 * self.challenge.k + 5 ≤ N }
        requires size { N ≤ 65536 }
        ensures kept { OnOk result (broken self.entry.challenge.k (asked_in self.entry.challenge) (shown_in self.entry.challenge self.entry.row.now) shown.now ≡ None) }
        ensures refused { IfErr result (λ e. fault_in self.entry.challenge self.entry.row.now shown.now ≡ Some e) }
    {
        let mut before = [0u64; N];
        let mut seen = [0u64; N];
        self.refuse(shown, &mut before, &mut seen)
    }
}

impl Challenge {
    // Whether what the policy shows after the request that came last keeps the rules.
    pub fn accept(self, row: &[u64], shown: &[u64]) -> Result<(), Refusal>
        ensures kept { OnOk result (broken self.k (asked_in self) (shown_in self row.now) shown.now ≡ None) }
        ensures refused { IfErr result (λ e. if_long self row.now (fault_in self row.now shown.now) ≡ Some e) }
    {
        let reading = Reading::new(self, row)?;
        if self.k <= SMALL_CAPACITY {
            return reading.refuse_apart::<SMALL_ROW>(shown);
        }
        reading.refuse_apart::<LARGEST_ROW>(shown)
    }
}
