// One day: what the report and LRU say of it, beside every schedule.
use crate::distances::count;
use crate::schedules::search;
use crate::tallies::{Close, Tally};
use anyhow::Context;
use belady::report;
use lru_cache::{Capacity, fetches};
use std::fmt;
use traces::Pages;

// The largest capacity of LRU, and of the report.
const LARGEST: usize = 6;

// What is said of a day where LRU has k places and anybody else h.
#[derive(Clone, Copy)]
struct Sayings {
    h: usize,
    k: usize,
    // the report's numbers: LRU with k places, and the fewest with h
    house: u64,
    known: u64,
    // what LRU fetched with k places when it played, and what it should
    played: u64,
    counted: u64,
    // the fewest of all schedules with h places
    fewest: u64,
}

impl Sayings {
    // These products are of small numbers: they saturate nowhere, so that nothing has to be proved of them.
    fn close(self) -> Close {
        let places = self.k.saturating_add(1).saturating_sub(self.h);
        Close {
            part: self.played.saturating_mul(places as u64),
            whole: self.fewest.saturating_mul(self.k as u64),
            k: self.k,
        }
    }

    fn right(self) -> bool {
        let close = self.close();
        let agreed = self.house == self.counted
            && self.played == self.counted
            && self.known == self.fewest;
        agreed && close.part <= close.whole
    }
}

impl fmt::Display for Sayings {
    fn fmt<W: fmt::Write>(&self, f: &mut fmt::Formatter<W>) -> fmt::Result {
        let Sayings {
            h,
            k,
            house,
            known,
            played,
            counted,
            fewest,
        } = *self;
        writeln!(
            f,
            "DIFFERS: LRU with {k} places: house {house}, played {played}, counted {counted}"
        )?;
        write!(f, "    with {h} places: known {known}, fewest {fewest}")
    }
}

// The report and LRU with every capacity from h to the largest, beside every schedule with h places.
pub fn compare(
    rt: &HostRuntime,
    trace: &[u64],
    capacity: Capacity,
    tally: &mut Tally,
) -> anyhow::Result<()> {
    let h = capacity.places;
    let found = search(trace, h);
    tally.add_day(found.schedules);
    let fewest = found.fewest.context("no schedule serves a day")?;
    let mut row = [0; 2 * LARGEST];
    report(trace, LARGEST, &mut row)?;
    let (house, known) = row.split_at(LARGEST);
    let known = *known
        .get(h - 1)
        .context("more places than a report is made for")?;
    for (k, &house) in (1..=LARGEST).zip(house).skip(h - 1) {
        let sayings = Sayings {
            h,
            k,
            house,
            known,
            played: fetches(trace, k)?,
            counted: count(trace, k),
            fewest,
        };
        if !sayings.right() {
            println!(rt; "{sayings}; the requests:{}", Pages(trace))?;
        }
        tally.add_comparison(sayings.right(), sayings.close());
    }
    Ok(())
}
