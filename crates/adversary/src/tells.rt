// What a challenge tells of the request that came last.
ghost use Rattle.std.specs.Prelude.{◌≡◌};
ghost use Rattle.adversary.specs.Places.{shown_in};

use crate::challenge::Challenge;

impl Challenge {
    // What the policy showed before the request that came last.
    pub fn before(self, row: &[u64]) -> &[u64]
        ensures value { result.now ≡ shown_in self row.now }
    {
        let from = 2 * self.k + 1;
        let from = from.min(row.len());
        let to = (from + self.shown).min(row.len());
        &row[from..to]
    }
}
