// One line for each case and each day. Each line is another than those of report_days, over another function's half of a row; what both
// programs have is in traces.
use curve::curve;
use lru_cache::fetches;
use std::io;
use traces::{Case, Day, agreed, rest};

// The fetches with a few of the capacities, or the refusal, and whether what is not to be written is as it was.
pub fn show(rt: &HostRuntime, case: &Case) -> io::Result<()> {
    let Case { name, m, .. } = *case;
    let trace = case.trace(rt.alloc())?;
    let mut row = case.row(rt.alloc())?;
    print!(rt; "{name}:")?;
    let written = match curve(&trace, m, &mut row) {
        Ok(()) => {
            tell(rt, &row, case)?;
            m
        }
        Err(refusal) => {
            print!(rt; " {refusal};")?;
            0
        }
    };
    println!(rt; " {}", rest(&row, written))
}

fn tell(rt: &HostRuntime, row: &[u64], case: &Case) -> io::Result<()> {
    for (c, fetches) in (1..=case.m).zip(row) {
        if case.shows(c) {
            print!(rt; " {fetches} with {c};")?;
        }
    }
    Ok(())
}

// The curve of a day with m capacities beside one cache for each.
pub fn compare(rt: &HostRuntime, day: Day, m: usize) -> io::Result<()> {
    let trace = day.trace(rt.alloc())?;
    let mut row = vec![in rt.alloc(); 0; m.saturating_mul(2)]?;
    let made = curve(&trace, m, &mut row);
    let same = made.map_or(0, |()| agreed(&row[..m], |k| fetches(&trace, k).ok()));
    println!(rt; "{day}: {same} of {m} capacities as played")
}
