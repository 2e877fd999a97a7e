// What a caller does with a row: empty it, look for a page, request one, list them.
ghost use Rattle.std.specs.Prelude.{◌≡◌, ◌+◌, ◌*◌, ◌<◌, ◌≤◌, false, ◌++◌, length, take, drop, MatchBool, MatchOption, slice_index};
ghost use Rattle.paging.specs.Lists.{has};
ghost use Rattle.paging.specs.Lru.{lru};
ghost use Rattle.recency.specs.Hash.{home};
ghost use Rattle.recency.specs.Row.{pages, count, held, next, prev, door, admitted, renewed};
ghost use Rattle.recency.specs.Sound.{Sound, Emptied};
ghost use Rattle.recency.specs.Outcome.{outcome, fits};

use crate::chains::{door_of, enter, forget, probe, seek, wipe};
use crate::layout::Capacity;
use crate::ring::{push, unlink};

// What a request found.
#[derive(Clone, Copy, Debug, PartialEq, Eq)]
pub enum Outcome {
    // The page was there.
    Hit,
    // It was not, and a place was free.
    Filled,
    // It was not, and this page, used longest ago, made room for it.
    Evicted(u64),
}

// Makes a row for k pages that holds none. Where k is no capacity, or the row is too short for it, nothing is changed.
// A bool is all there is to say: an error type would have one value.
pub fn clear(row: &mut [u64], k: usize) -> bool
    ensures value { result ≡ fits k (length row.old) }
    ensures after { MatchBool result (Emptied k row.old row.new) (row.new ≡ row.old) }
{
    match Capacity::new(k) {
        Some(capacity) if capacity.row_len() <= row.len() => {
            reset(row, capacity);
            true
        }
        _ => false,
    }
}

// A ring of slot 0 alone, and no chain that leads anywhere.
fn reset(row: &mut [u64], k: Capacity)
    requires long { 9 * k.places + 5 ≤ length row.old }
    ensures after { Emptied k.places row.old row.new }
{
    row[0] = 0;
    row[1] = 0;
    row[3] = 0;
    wipe(row, k);
}

// Whether a page is there. Nothing moves.
pub fn contains(row: &[u64], k: usize, page: u64) -> bool
    requires sound { Sound k row.now }
    ensures value { result ≡ has (pages row.now) page }
{
    probe(row, Capacity { places: k }, page).is_some()
}

// Requests a page, which is the one used last from then on. One that is not there comes in, where there is no place for the
// page that was used longest ago.
pub fn request(row: &mut [u64], k: usize, page: u64) -> Outcome
    requires sound { Sound k row.old }
    ensures value { result ≡ outcome k (pages row.old) page }
    ensures after { pages row.new ≡ lru k (pages row.old) page }
    ensures sound { Sound k row.new }
    ensures beyond { drop (9 * k + 5) row.new ≡ drop (9 * k + 5) row.old }
{
    let capacity = Capacity { places: k };
    row[2] = page;
    let found = seek(row, capacity, page);
    if (row[3] as usize) < k && found.is_none() {
        fill(row, k, page);
        return Outcome::Filled;
    }
    replace(row, capacity, found, page)
}

// Requests a page where its slot is known, or no place is free. A hit and a miss do the same to the row and only the slot is chosen: a
// processor can't guess whether a page will be there, and a choice is no guess.
fn replace(row: &mut [u64], k: Capacity, found: Option<usize>, page: u64) -> Outcome
    requires sound { Sound k.places row.old }
    requires last { prev row.old 0 ≤ k.places }
    requires found { MatchOption found ((count row.old ≡ k.places) × (has (pages row.old) page ≡ false)) (λ s. (1 ≤ s) × (s ≤ count row.old) × (held row.old s ≡ page)) }
    ensures value { result ≡ outcome k.places (pages row.old) page }
    ensures after { pages row.new ≡ lru k.places (pages row.old) page }
    ensures sound { Sound k.places row.new }
    ensures beyond { drop (9 * k.places + 5) row.new ≡ drop (9 * k.places + 5) row.old }
{
    let oldest = row[1] as usize;
    let gone = row[5 * oldest + 2];
    renew(row, k, found.unwrap_or(oldest), page);
    match found {
        Some(_) => Outcome::Hit,
        None => Outcome::Evicted(gone),
    }
}

// Makes the page in a slot of the ring the one used last, which may be another from then on.
fn renew(row: &mut [u64], k: Capacity, slot: usize, page: u64)
    requires sound { Sound k.places row.old }
    requires low { 1 ≤ slot }
    requires high { slot ≤ count row.old }
    ensures after { row.new ≡ renewed k.places row.old slot page }
{
    forget(row, slot);
    unlink(row, slot);
    admit(row, k, slot, page);
}

// Puts a page in front that is not there, where a place is free: what a request would do, with no search.
pub fn fill(row: &mut [u64], k: usize, page: u64)
    requires sound { Sound k row.old }
    requires room { count row.old < k }
    requires absent { has (pages row.old) page ≡ false }
    ensures after { pages row.new ≡ lru k (pages row.old) page }
    ensures sound { Sound k row.new }
    ensures beyond { drop (9 * k + 5) row.new ≡ drop (9 * k + 5) row.old }
{
    let slot = row[3] + 1;
    row[3] = slot;
    admit(row, Capacity { places: k }, slot as usize, page);
}

// Puts a page into a slot that is in neither the ring nor a chain, and the slot in front of both.
fn admit(row: &mut [u64], k: Capacity, slot: usize, page: u64)
    requires long { 9 * k.places + 5 ≤ length row.old }
    requires inside { slot ≤ k.places }
    requires head { next row.old 0 ≤ k.places }
    requires first { slice_index row.old (door k.places (home k.places page)) ≤ k.places }
    ensures after { row.new ≡ admitted k.places row.old slot page }
{
    row[5 * slot + 2] = page;
    push(row, slot);
    enter(row, door_of(k, page), slot);
}

// Writes the pages, the one used last first, as far as `out` goes, and says how many there are.
pub fn list(row: &[u64], k: usize, out: &mut [u64]) -> usize
    requires sound { Sound k row.now }
    ensures value { result ≡ length (pages row.now) }
    ensures after { out.new ≡ take (length out.old) (pages row.now) ++ drop (length (pages row.now)) out.old }
{
    let count = row[3] as usize;
    let mut slot = row[0] as usize;
    let n = count.min(out.len());
    // The slot is stepped beside the places, since links are followed: no slice has the slots in this order.
    for place in &mut out[..n] {
        *place = row[5 * slot + 2];
        slot = row[5 * slot] as usize;
    }
    count
}
