// A day from a text, as `play --text` reads one, played by LRU and by the least requested side by side, and its summary.
#![tactic(auto)]

use anyhow::bail;
use least_requested::LeastRequested;
use policies::{Lru, WithCapacity};
use std::io::Read;
use summary::{summarize, tell};
use text::Reader;

const PLACES: usize = 5;

// How many bytes of the text are read at once. Each can end a page, so that pages for all of them would take eight times its memory.
const PIECE: usize = 1024;

fn main(rt: HostRuntime) -> anyhow::Result<()> {
    let mut bytes = Vec::new(rt.alloc());
    rt.stdin().read_to_end(&mut bytes)?;
    let mut reader = Reader::new();
    let mut trace = Vec::new(rt.alloc());
    for piece in bytes.chunks(PIECE) {
        add_pages(&mut reader, piece, &mut trace)?;
    }
    // The end of a text is read as a line break.
    add_pages(&mut reader, b"\n", &mut trace)?;
    if let Some(word) = reader.bad() {
        bail!("standard input:{word}");
    }
    compare(&rt, &trace)
}

// Adds the pages that a piece of the text names to the trace.
fn add_pages(reader: &mut Reader, piece: &[u8], trace: &mut Vec<u64>) -> anyhow::Result<()> {
    let mut pages = [0; PIECE];
    let count = reader.read(piece, &mut pages);
    trace.extend_from_slice(&pages[..count])?;
    Ok(())
}

fn compare(rt: &HostRuntime, trace: &[u64]) -> anyhow::Result<()> {
    play::<Lru>(rt, "LRU", trace)?;
    play::<LeastRequested>(rt, "the least requested", trace)?;
    sum_up(rt, trace)
}

// How many of the requests a policy fetches.
fn play<P: WithCapacity + Drop>(rt: &HostRuntime, name: &str, trace: &[u64]) -> anyhow::Result<()> {
    let mut keeper = P::with_capacity(rt.alloc(), PLACES)?;
    let mut fetched = 0u64;
    for page in trace {
        if !keeper.shown().contains(page) {
            fetched = fetched.saturating_add(1);
        }
        keeper.serve(*page);
    }
    let requests = trace.len();
    println!(rt; "{name} with {PLACES} places fetches {fetched} of {requests}")?;
    Ok(())
}

// The summary, where there is one: of more than 4,096 requests there is none, and the two lines above it are all that is told.
fn sum_up(rt: &HostRuntime, trace: &[u64]) -> anyhow::Result<()> {
    let Ok(summary) = summarize(trace, PLACES) else {
        return Ok(());
    };
    let mut text = String::new(rt.alloc());
    tell(summary, &mut text)?;
    rt.print(&text)?;
    Ok(())
}
