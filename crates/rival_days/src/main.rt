// Short days of several kinds beside every feasible schedule: that the report's second number is the fewest of all, and that LRU keeps its
// bound. One line for each kind of day and number of places; it ends with a fault where anything differs.
#![tactic(auto)]

mod compares;
mod distances;
mod generator;
mod schedules;
mod tallies;

use anyhow::bail;
use compares::compare;
use generator::Habit;
use lru_cache::Capacity;
use std::io;
use std::process::ExitCode;
use tallies::{Close, Tally};

// How many days of each kind.
const DAYS: u64 = 100;

const HABITS: [Habit; 5] = [
    Habit::AnyPage,
    Habit::Skewed,
    Habit::Loop,
    Habit::Phases,
    Habit::TwoScans,
];

// What differs is told on standard output, so that nothing is told on standard error: a fault is the status alone.
fn main(rt: HostRuntime) -> ExitCode {
    match compare_all(&rt) {
        Ok(()) => ExitCode::SUCCESS,
        Err(_) => ExitCode::FAILURE,
    }
}

// Every kind of day, beside every number of places.
fn compare_all(rt: &HostRuntime) -> anyhow::Result<()> {
    let mut total = Tally::default();
    for habit in HABITS {
        for h in 1..=3 {
            let tally = days(rt, habit, Capacity { places: h })?;
            tell(rt, habit, h, tally)?;
            total.add_all(tally);
        }
    }
    end(rt, total)
}

// All days of a kind beside so many places.
fn days(rt: &HostRuntime, habit: Habit, capacity: Capacity) -> anyhow::Result<Tally> {
    let mut tally = Tally::default();
    for day in 0..DAYS {
        let mut trace = vec![in rt.alloc(); 0; 8 + (day % 5) as usize]?;
        habit.fill(&mut trace, day);
        compare(rt, &trace, capacity, &mut tally)?;
    }
    Ok(tally)
}

fn tell(rt: &HostRuntime, habit: Habit, h: usize, tally: Tally) -> io::Result<()> {
    let Tally {
        days,
        schedules,
        ..
    } = tally;
    print!(rt; "{habit}, h {h}: {days} days, {schedules} schedules")?;
    if let Some(Close { part, whole, k }) = tally.closest {
        print!(rt; "; LRU closest to its bound with k {k}: {part} of {whole}")?;
    }
    rt.println("")
}

fn end(rt: &HostRuntime, total: Tally) -> anyhow::Result<()> {
    let Tally {
        schedules,
        compared,
        failed,
        ..
    } = total;
    println!(rt; "{schedules} schedules, {compared} comparisons, {failed} failed")?;
    if failed > 0 {
        bail!("{failed} comparisons failed");
    }
    Ok(())
}
