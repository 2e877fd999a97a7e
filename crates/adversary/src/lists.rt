// The lists that a challenge keeps in its row: the round's pages, the pages picked, what was shown.
ghost use Rattle.std.specs.Prelude.{◌≡◌, ◌+◌, ◌*◌, ◌<◌, ◌≤◌, [], ◌∷◌, ◌++◌, length, take, drop};
ghost use Rattle.paging.specs.Adversary.{once_each};
ghost use Rattle.adversary.specs.Rules.{Marks};

use crate::challenge::Challenge;
use recency::Outcome;

impl Challenge {
    // Notes a page behind those that were picked, unless it is among them, and says how many there are then: a list is a slice and a number,
    // since all three stand in one lent row. They are looked through, since the index has what is shown marked.
    pub(crate) fn note(self, row: &mut [u64], page: u64) -> usize
        requires long { 3 * self.k + 1 ≤ length row.old }
        ensures bound { result ≤ self.noted + 1 }
        ensures after { take result (drop (self.k + 1) row.new) ≡ once_each (take self.noted (drop (self.k + 1) row.old)) (page ∷ []) }
        ensures front { take (self.k + 1) row.new ≡ take (self.k + 1) row.old }
        ensures rest { drop (2 * self.k + 1) row.new ≡ drop (2 * self.k + 1) row.old }
    {
        let from = self.k + 1;
        let to = from + self.noted;
        if rows::holds(&row[from..to], page) {
            return self.noted;
        }
        row[to] = page;
        self.noted + 1
    }

    // Notes a page behind the `noted` ones for the schedule's list, which `seen` has marked, unless it is among them or there are h, and says
    // how many there are then. `picked` is the row from the pages picked on.
    pub(crate) fn add(self, picked: &mut [u64], noted: usize, page: u64, seen: &mut [u64]) -> usize
        requires long { self.k ≤ length picked.old }
        requires few { noted ≤ self.h }
        requires marked { Marks self.k seen.old (take noted picked.old) }
        ensures few { result ≤ self.h }
        ensures after { take result picked.new ≡ take self.h (once_each (take noted picked.old) (page ∷ [])) }
        ensures marked { Marks self.k seen.new (take result picked.new) }
        ensures rest { drop self.k picked.new ≡ drop self.k picked.old }
    {
        if noted == self.h || recency::request(seen, self.k, page) == Outcome::Hit {
            return noted;
        }
        picked[noted] = page;
        noted + 1
    }

    // Stores what is shown. No type for at most k pages: `mark` and `refuse_odd` write in an index beside them, and only this would take it.
    pub(crate) fn store(self, row: &mut [u64], shown: &[u64])
        requires long { 3 * self.k + 1 ≤ length row.old }
        requires few { length shown.now ≤ self.k }
        ensures front { take (2 * self.k + 1) row.new ≡ take (2 * self.k + 1) row.old }
        ensures after { take (length shown.now) (drop (2 * self.k + 1) row.new) ≡ shown.now }
        ensures beyond { drop (3 * self.k + 1) row.new ≡ drop (3 * self.k + 1) row.old }
    {
        let from = 2 * self.k + 1;
        let to = from + shown.len();
        row[from..to].copy_from_slice(shown);
    }
}
