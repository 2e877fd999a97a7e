// What a challenge comes to, counted from what was seen of it.
ghost use Rattle.std.specs.Prelude.{◌≤◌};

use crate::caches::may_follow;
use crate::setting::{PLACES, Setting};
use adversary::Challenge;
use anyhow::{Context, ensure};
use belady::report;
use std::alloc::{AllocError, Global};
use std::fmt;
use trace::Totals;

// The requests so far, and what the policy and the schedule did. The counts saturate: no bound of them stands in the type, and at most 42 are
// counted.
#[derive(Drop)]
pub struct Seen {
    trace: Vec<u64>,
    // how many requests the policy did not have
    keeper: u64,
    // the schedule's cache, and how many requests it did not have
    cache: Vec<u64>,
    rival: u64,
}

impl Seen {
    pub fn new(heap: Global) -> Seen {
        Seen {
            trace: Vec::new(heap),
            keeper: 0,
            cache: Vec::new(heap),
            rival: 0,
        }
    }

    // One more request, where the policy showed these pages before it.
    pub fn add(&mut self, page: u64, shown: &[u64]) -> Result<(), AllocError> {
        if !shown.contains(&page) {
            self.keeper = self.keeper.saturating_add(1);
        }
        self.trace.push(page)?;
        Ok(())
    }

    // Reads the caches of the schedule after each of the last n requests, which were a round.
    pub fn read(&mut self, challenge: Challenge, row: &[u64], n: usize) -> anyhow::Result<()> {
        let from = self.trace.len().saturating_sub(n);
        for (i, page) in self.trace.iter().skip(from).enumerate() {
            let mut pages = [0; PLACES];
            let count = challenge.cache_beside(row, i, &mut pages);
            let next = count
                .and_then(|count| pages.get(..count))
                .context("a cache of the schedule can't be had")?;
            ensure!(
                may_follow(next, &self.cache, *page, challenge.h),
                "a cache of the schedule breaks the rules"
            );
            if !self.cache.contains(page) {
                self.rival = self.rival.saturating_add(1);
            }
            self.cache.clear();
            self.cache.extend_from_slice(next)?;
        }
        Ok(())
    }

    // The counts beside a schedule. A report that refuses leaves the row as it is, with a number that no requests have, so that the counts
    // are told and differ from what they should be.
    pub fn count(&self, setting: Setting) -> Counts {
        let mut row = [u64::MAX; 2 * PLACES];
        let _ = report(&self.trace, PLACES, &mut row);
        let totals = Totals {
            asked: self.trace.len() as u64,
            keeper: self.keeper,
            rival: self.rival,
        };
        Counts {
            totals,
            known: row[PLACES + setting.h - 1],
        }
    }
}

// What a challenge came to, and the fewest fetches that anybody could make on its requests.
#[derive(Clone, Copy, PartialEq, Eq)]
pub struct Counts {
    totals: Totals,
    known: u64,
}

impl Counts {
    // What so many rounds should come to. The sums of `telling::count` are written out again, since the library is not held to itself here. The
    // schedule fetches each page once, so that nobody could fetch fewer.
    pub fn of(setting: Setting, rounds: usize) -> Counts
        requires few { rounds ≤ 6 }
    {
        let Setting { k, h, .. } = setting;
        let asked = (h + rounds * k) as u64;
        let rival = (h + rounds * (k + 1 - h)) as u64;
        let totals = Totals {
            asked,
            keeper: asked,
            rival,
        };
        Counts {
            totals,
            known: rival,
        }
    }
}

impl fmt::Display for Counts {
    fn fmt<W: fmt::Write>(&self, f: &mut fmt::Formatter<W>) -> fmt::Result {
        let Counts { totals, known } = *self;
        write!(f, "{totals} known {known}")
    }
}
