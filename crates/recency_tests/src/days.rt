// A day on a row: the requests of a trace from an empty row on.
ghost use Rattle.recency.specs.Sound.{Sound};

use crate::plain::plain_day;
use recency::{Capacity, LARGEST_ROW, MAX_CAPACITY, Outcome};
use std::alloc::{AllocError, Global};
use traces::begins;

// What a number holds that is not to be touched: no page.
pub const UNTOUCHED: u64 = 0x1_0000_0002;

// Room for every row, and for something beyond it.
const ROOM: usize = LARGEST_ROW + 3;

// Why a day does not come to its end.
#[derive(Clone, Copy, Debug, PartialEq, Eq)]
pub enum Fault {
    // There is no memory for what the requests find.
    Memory,
    // A row was not cleared for so many pages.
    NotCleared(usize),
    // `contains` and `request` differ on a page.
    Differ(u64),
}

impl From<AllocError> for Fault {
    fn from(_: AllocError) -> Fault {
        Fault::Memory
    }
}

// Clears the row for k pages, requests the trace, and writes the pages at the end as far as `left` goes. Answers what each request
// found, and how many pages there are.
pub fn day(
    heap: Global,
    row: &mut [u64],
    k: usize,
    trace: &[u64],
    left: &mut [u64],
) -> Result<(Vec<Outcome>, usize), Fault> {
    if !recency::clear(row, k) {
        return Err(Fault::NotCleared(k));
    }
    let found = serve(heap, row, k, trace)?;
    Ok((found, recency::list(row, k, left)))
}

// What each request of the trace finds.
fn serve(heap: Global, row: &mut [u64], k: usize, trace: &[u64]) -> Result<Vec<Outcome>, Fault>
    requires sound { Sound k row.old }
    ensures sound { Sound k row.new }
{
    let mut found = Vec::new(heap);
    for &page in trace {
        let there = recency::contains(row, k, page);
        let outcome = recency::request(row, k, page);
        if there != (outcome == Outcome::Hit) {
            return Err(Fault::Differ(page));
        }
        found.push(outcome).map_err(AllocError::from)?;
    }
    Ok(found)
}

// Whether a day with k places gives these findings and these pages at the end, and touches nothing beyond the row.
pub fn gives(
    heap: Global,
    k: usize,
    trace: &[u64],
    expected: &[Outcome],
    pages: &[u64],
) -> Result<bool, Fault> {
    let capacity = Capacity::new(k).ok_or(Fault::NotCleared(k))?;
    let mut row = vec![in heap; UNTOUCHED; ROOM]?;
    let mut left = vec![in heap; UNTOUCHED; MAX_CAPACITY + 1]?;
    let (found, count) = day(heap, &mut row, k, trace, &mut left)?;
    Ok(
        found.as_slice() == expected
            && count == pages.len()
            && begins(&left, pages, &UNTOUCHED)
            && begins(&row[capacity.row_len()..], &[], &UNTOUCHED),
    )
}

// Whether a day with k places goes as it does the plain way.
pub fn agrees(heap: Global, k: usize, trace: &[u64]) -> Result<bool, Fault> {
    let (expected, pages) = plain_day(heap, k, trace)?;
    gives(heap, k, trace, &expected, &pages)
}

// Whether a row of so many numbers is not cleared for k pages, and stays as it was.
pub fn refuses(heap: Global, len: usize, k: usize) -> Result<bool, AllocError> {
    let mut row = vec![in heap; UNTOUCHED; len]?;
    Ok(!recency::clear(&mut row, k) && begins(&row, &[], &UNTOUCHED))
}
