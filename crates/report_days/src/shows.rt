// What a report says, line by line, and how many of its numbers Belady's rule agrees with. Each line is another than those of curve_days,
// over another function's half of a row; what both programs have is in traces.
use belady::{fetches, report};
use std::io;
use traces::{Case, Day, agreed, rest};

// The lines of a few capacities, or the refusal, and whether what is not to be written is as it was.
pub fn show(rt: &HostRuntime, case: &Case) -> io::Result<()> {
    let Case { name, m, .. } = *case;
    let trace = case.trace(rt.alloc())?;
    let mut row = case.row(rt.alloc())?;
    println!(rt; "{name}:")?;
    let written = match report(&trace, m, &mut row) {
        Ok(()) => {
            tell(rt, &row, case)?;
            m.saturating_mul(2)
        }
        Err(refusal) => {
            println!(rt; "{refusal}")?;
            0
        }
    };
    println!(rt; "and {}", rest(&row, written))
}

fn tell(rt: &HostRuntime, row: &[u64], case: &Case) -> io::Result<()> {
    let known = row.iter().skip(case.m);
    for (c, (house, known)) in (1..=case.m).zip(row.iter().zip(known)) {
        if case.shows(c) {
            println!(rt; "{c}: house {house} known {known}")?;
        }
    }
    Ok(())
}

// The second half of a day's report with m capacities beside Belady's rule at each of them.
pub fn compare(rt: &HostRuntime, day: Day, m: usize) -> io::Result<()> {
    let trace = day.trace(rt.alloc())?;
    let mut row = vec![in rt.alloc(); 0; m.saturating_mul(2)]?;
    let made = report(&trace, m, &mut row);
    let same = made.map_or(0, |()| agreed(&row[m..], |h| fetches(&trace, h).ok()));
    println!(rt; "{day}: {same} of {m} capacities as the rule")
}
