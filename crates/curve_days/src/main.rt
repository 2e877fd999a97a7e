// The curve on days worked out by hand, at the edges of what is taken, and on random days beside one cache for each capacity. One
// line for each day.
#![tactic(auto)]

mod cases;
mod shows;

use cases::{BAD_THRICE, EDGES};
use shows::{compare, show};
use std::io;
use traces::{BAD_CAPACITIES, BAD_TRACES, BAD_TWICE, Day, Kind, LARGEST, WORKED, short_days};

fn main(rt: HostRuntime) -> io::Result<()> {
    let taken = WORKED.iter().chain(&EDGES).chain(&LARGEST);
    let bad = BAD_TRACES.iter().chain(&BAD_CAPACITIES);
    for case in taken.chain(bad).chain(&BAD_THRICE).chain(&BAD_TWICE) {
        show(&rt, case)?;
    }
    random(&rt)
}

fn random(rt: &HostRuntime) -> io::Result<()> {
    for day in short_days() {
        compare(rt, day, 120)?;
    }
    let day = Day {
        requests: 4096,
        pages: 700,
        kind: Kind::NearTheLast,
    };
    compare(rt, day, 4096)
}
