// The paragraph on days worked out by hand, at the edges of what is taken, and where there is none; and pictures of some.
#![tactic(auto)]

mod pictures;

use pictures::show_pictures;
use summary::{summarize, tell};
use traces::{Kind, ROUNDS, TEN};

fn main(rt: HostRuntime) -> anyhow::Result<()> {
    worked(&rt)?;
    edges(&rt)?;
    refused(&rt)?;
    show_pictures(&rt)
}

fn worked(rt: &HostRuntime) -> anyhow::Result<()> {
    show(rt, "ten requests, 3 places", &TEN, 3)?;
    show(rt, "ten requests, 1 place", &TEN, 1)?;
    show(rt, "ten requests, 5 places", &TEN, 5)?;
    show(rt, "1 2 3 4 three times over, 3 places", &ROUNDS, 3)
}

fn edges(rt: &HostRuntime) -> anyhow::Result<()> {
    show(rt, "no request, 4096 places", &[], 4096)?;
    show(rt, "one request, 1 place", &[7], 1)?;
    show(rt, "4096 requests for one page, 2 places", &[9; 4096], 2)?;
    let mut trace = [0; 4096];
    Kind::InTurn.fill(&mut trace, 65);
    show(
        rt,
        "4096 requests over 65 pages in turn, 64 places",
        &trace,
        64,
    )?;
    Kind::InTurn.fill(&mut trace, 4096);
    show(rt, "4096 different pages, 4096 places", &trace, 4096)
}

fn refused(rt: &HostRuntime) -> anyhow::Result<()> {
    show(rt, "no places", &[1], 0)?;
    show(rt, "4097 places", &[1], 4097)?;
    show(rt, "4097 requests", &[9; 4097], 1)?;
    show(rt, "a page that is not below 2^32", &[1, 0x1_0000_0000], 1)
}

// Called with literals, a line for each case: a struct of them would be taken apart at once. So in pictures.rt.
fn show(rt: &HostRuntime, name: &str, trace: &[u64], k: usize) -> anyhow::Result<()> {
    println!(rt; "{name}:")?;
    let mut text = String::new(rt.alloc());
    match summarize(trace, k) {
        Ok(summary) => tell(summary, &mut text)?,
        Err(refusal) => writeln!(text, "{refusal}")?,
    }
    rt.print(&text)?;
    Ok(())
}
