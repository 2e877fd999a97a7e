// The report on days worked out by hand, at the edges of what is taken, and on random days beside Belady's rule at each capacity.
#![tactic(auto)]

mod caches;
mod cases;
mod shows;

use caches::show_caches;
use cases::EDGES;
use lru_cache::Capacity;
use shows::{compare, show};
use std::io;
use traces::{
    BAD_CAPACITIES, BAD_TRACES, BAD_TWICE, Day, Kind, LARGEST, ROUNDS, TEN, WORKED, short_days,
};

fn main(rt: HostRuntime) -> io::Result<()> {
    worked(&rt)?;
    let taken = EDGES.iter().chain(&LARGEST);
    let bad = BAD_TRACES.iter().chain(&BAD_TWICE).chain(&BAD_CAPACITIES);
    for case in taken.chain(bad) {
        show(&rt, case)?;
    }
    random(&rt)
}

fn worked(rt: &HostRuntime) -> io::Result<()> {
    let [ten, rounds] = &WORKED;
    show(rt, ten)?;
    show_caches(rt, &TEN, Capacity { places: 3 })?;
    show(rt, rounds)?;
    show_caches(rt, &ROUNDS, Capacity { places: 2 })
}

fn random(rt: &HostRuntime) -> io::Result<()> {
    for day in short_days() {
        compare(rt, day, 120)?;
    }
    let day = Day {
        requests: 1024,
        pages: 256,
        kind: Kind::AnyPage,
    };
    compare(rt, day, 300)
}
