// Where the adversary stands: counts over a lent row.
ghost use Rattle.std.specs.Prelude.{◌≡◌, ◌+◌, ◌<◌, ◌≤◌};

// A policy with k places beside a schedule with h. The row holds the round's pages from 0 on, those that the second part picked, each once,
// from k + 1 on, and what the policy showed last from 2 * k + 1 on. What reads it is a `Reading`. What writes in it asks for its length: of
// what a struct over `&mut` has written nothing is known once it is let go. Places in it are sums: a function for each would say its sum
// again in its clause.
#[derive(Clone, Copy, Debug, PartialEq, Eq)]
pub struct Challenge {
    // How many places the policy has, and how many the schedule.
    pub k: usize,
    pub h: usize,
    // The next new page.
    pub next: u64,
    // How many pages of the round are listed, how many are noted as picked, how many picks the second part has had.
    pub listed: usize,
    pub noted: usize,
    pub picks: usize,
    // How many pages were shown last, and the page requested last. The field is public, and `page` promises 0 before the first request.
    pub shown: usize,
    pub last: u64,
    ghost low: { 1 ≤ h },
    ghost within: { h ≤ k },
    ghost high: { k ≤ 4096 },
    ghost full: { listed ≤ k + 1 },
    ghost each: { noted ≤ picks },
    ghost few: { picks < h },
    ghost held: { shown ≤ k },
    ghost older: { listed < next },
    ghost unseen: { (next ≡ 1 → shown ≡ 0) },
    ghost left: { next ≤ 4294967296 },
}
