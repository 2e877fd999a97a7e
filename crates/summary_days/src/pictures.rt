// Pictures of days, and where there is none.
use belady::report;
use curve::REPORT_LEN;
use picture::{Undrawable, draw};
use traces::TEN;

pub fn show_pictures(rt: &HostRuntime) -> anyhow::Result<()> {
    show_day(
        rt,
        "ten requests up to 4 places, with a mark at 3",
        &TEN,
        4,
        3,
    )?;
    show_day(rt, "one request, 1 place", &[7], 1, 1)?;
    show_day(rt, "no request, 2 places, with a mark at 3", &[], 2, 3)?;
    show_day(rt, "4096 requests up to 4096 places", &[9; 4096], 4096, 1)?;
    show(rt, "a row one too short", &[1; 9], 5, 1)?;
    show(rt, "no capacity", &[1; 9], 0, 1)?;
    show(rt, "4097 capacities", &[1; 9], 4097, 1)
}

// The picture of a day's report.
fn show_day(rt: &HostRuntime, name: &str, trace: &[u64], m: usize, k: usize) -> anyhow::Result<()> {
    let mut row = [0; REPORT_LEN];
    report(trace, m, &mut row)?;
    show(rt, name, &row, m, k)
}

fn show(rt: &HostRuntime, name: &str, row: &[u64], m: usize, k: usize) -> anyhow::Result<()> {
    println!(rt; "{name}:")?;
    let mut text = String::new(rt.alloc());
    let drawn = match draw(row, m, k, &mut text) {
        Ok(()) => true,
        Err(Undrawable::NoRow) => false,
        Err(error) => return Err(error.into()),
    };
    println!(rt; "drawn {drawn}")?;
    rt.print(&text)?;
    Ok(())
}
