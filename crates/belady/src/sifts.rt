// The row of pages for every capacity: a request carries its page down the row, and the nearer of two pages stays in front.
ghost use Rattle.std.specs.Prelude.{◌<◌, ◌≤◌, length, take, MatchOption};
ghost use Rattle.paging.proofs.Keyed.{Keyed};
ghost use Rattle.belady.specs.Sifts.{Carried, Sifts};

use std::mem::swap;

// Where the page requested stood in the row, if it did, and the page that is carried there, or else to the end, with its key.
#[derive(Clone, Copy)]
pub(crate) struct Sifted {
    pub(crate) at: Option<usize>,
    pub(crate) carry: u64,
    pub(crate) key: u64,
}

// Carries the page of the i-th request down the first n places, to the one where it stands, or to the end. At each place on the way the
// page with the nearer next use stays, and the other is carried on with its key.
pub(crate) fn sift(trace: &[u64], i: usize, pages: &mut [u64], keys: &mut [u64], n: usize) -> Sifted
    requires within { i < length trace.now }
    requires pages { n ≤ length pages.old }
    requires keys { n ≤ length keys.old }
    requires keyed { Keyed trace.now i pages.old keys.old n }
    ensures after { MatchOption result.at (Carried trace.now i (take n pages.old) pages.new keys.new n n result.carry result.key) (λ at. (at < n) × Sifts trace.now i (take n pages.old) pages.new keys.new n at result.carry result.key) }
{
    let mut carry = trace[i];
    let mut key = i as u64;
    // Two rows and one index: as a row of pairs each place that is passed takes 10 instructions in place of 9, and a report 4 % more.
    for k in 0..n {
        if pages[k] == trace[i] {
            return Sifted {
                at: Some(k),
                carry,
                key,
            };
        }
        if key < keys[k] {
            swap(&mut pages[k], &mut carry);
            swap(&mut keys[k], &mut key);
        }
    }
    Sifted {
        at: None,
        carry,
        key,
    }
}
