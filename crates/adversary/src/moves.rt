// A request entered: where the adversary stands then.
ghost use Rattle.std.specs.Prelude.{◌≡◌, ◌+◌, ◌-◌, ◌*◌, ◌^◌, ◌<◌, ◌≤◌, [], ◌∷◌, ◌++◌, length};
ghost use Rattle.paging.specs.Adversary.{once_each};
ghost use Rattle.paging.specs.Stepwise.{moved};
ghost use Rattle.adversary.specs.Places.{position_in};
ghost use Rattle.adversary.specs.Moves.{Over, Moved};

use crate::challenge::Challenge;

impl Challenge {
    // The round is over: the row has all its pages and `noted` picked ones. The schedule's list comes to the front: the pages picked, the
    // last new page, then the round's list in order, each once, h of them.
    fn over(self, row: &mut [u64], noted: usize, seen: &mut [u64]) -> Challenge
        requires long { 3 * self.k + 1 ≤ length row.old }
        requires room { 9 * self.k + 5 ≤ length seen.old }
        requires all { self.k < self.listed }
        requires few { noted ≤ self.h }
        ensures over { Over self row.old noted result row.new }
    {
        let (list, picked) = row.split_at_mut(self.k + 1);
        self.mark(seen, &picked[..noted]);
        let mut n = self.add(picked, noted, self.next - 1, seen);
        for page in list.iter() {
            n = self.add(picked, n, *page, seen);
        }
        list[..n].copy_from_slice(&picked[..n]);
        // Field by field: a literal with `..` is not taken for a struct with ghost fields.
        let mut over = self;
        over.listed = n;
        over.noted = 0;
        over.picks = 0;
        over
    }

    // The request for the page that is aimed at is entered: a new one where the round's list has room for it, or one of the list.
    pub(crate) fn enter(self, row: &mut [u64], page: u64, seen: &mut [u64]) -> Challenge
        requires long { 3 * self.k + 1 ≤ length row.old }
        requires room { 9 * self.k + 5 ≤ length seen.old }
        requires new { self.listed ≤ self.k → (page ≡ self.next) × (self.next < 4294967296) }
        ensures moved { Moved self row.old page self.shown result row.new }
    {
        let mut entered = self;
        entered.last = page;
        if self.listed <= self.k {
            row[self.listed] = page;
            entered.next += 1;
            entered.listed += 1;
            if self.listed < self.k || self.picks + 1 < self.h {
                return entered;
            }
            return entered.over(row, self.noted, seen);
        }
        let noted = self.note(row, page);
        if self.picks + 2 < self.h {
            entered.picks += 1;
            entered.noted = noted;
            return entered;
        }
        entered.over(row, noted, seen)
    }
}
