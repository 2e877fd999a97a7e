// Every challenge of up to six places and six rounds, against each of the three policies: what the policy fetched, what the schedule
// beside it fetched by its own caches, and the fewest that anybody could. It ends with a fault where anything differs.
#![tactic(auto)]

mod caches;
mod counts;
mod rounds;
mod setting;

use fifo::Fifo;
use least_requested::LeastRequested;
use policies::Lru;
use rounds::challenge;
use setting::{PLACES, Setting};
use std::process::ExitCode;

// What differs is told on standard output, so that nothing is told on standard error: a fault is the status alone.
fn main(rt: HostRuntime) -> ExitCode {
    match challenge_all(&rt) {
        Ok(()) => ExitCode::SUCCESS,
        Err(_) => ExitCode::FAILURE,
    }
}

// Every number of places, with every smaller one beside it.
fn challenge_all(rt: &HostRuntime) -> anyhow::Result<()> {
    for k in 1..=PLACES {
        for h in 1..=k {
            let setting = Setting { k, h };
            challenge::<Lru>(rt, "LRU", setting)?;
            challenge::<Fifo>(rt, "FIFO", setting)?;
            challenge::<LeastRequested>(rt, "least requested", setting)?;
        }
    }
    Ok(())
}
