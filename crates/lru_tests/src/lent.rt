// Rows that are lent in part, so that what is written behind their ends shows.
use lru_cache::{Outcome, Refusal};
use std::alloc::{AllocError, Global};

// What stands in a place for an outcome that is not to be touched: no page goes so.
pub const UNTOUCHED: Outcome = Outcome::Evicted(0xabcd_0000_0000_0000);

// What a row holds at a place where nobody wrote: no page, and at no two places the same.
fn noise(at: usize) -> u64 {
    0xabcd_0000_0000_0000 | at as u64
}

// Writes a row that begins so and goes on with noise.
pub fn lay(row: &mut [u64], front: &[u64]) {
    for (i, number) in row.iter_mut().enumerate() {
        *number = front.get(i).copied().unwrap_or(noise(i));
    }
}

// How many numbers stand behind a row: as many as the largest capacity, so that what is written far behind an end shows too.
const BEHIND: usize = 4096;

// A row of which all but those are lent.
#[derive(Drop)]
pub struct Row {
    numbers: Vec<u64>,
}

impl Row {
    // A row of so many numbers that begins so and goes on with noise, behind its end too.
    pub fn new(heap: Global, front: &[u64], len: usize) -> Result<Row, AllocError> {
        let mut numbers = vec![in heap; 0; len.saturating_add(BEHIND)]?;
        lay(&mut numbers, front);
        Ok(Row { numbers })
    }

    // The numbers that are lent.
    pub fn lend(&mut self) -> &mut [u64] {
        let len = self.numbers.len().saturating_sub(BEHIND);
        &mut self.numbers[..len]
    }

    // Whether the row begins so and goes on with noise. `begins` of traces looks for one mark; noise differs from place to place.
    pub fn holds(&self, front: &[u64]) -> bool {
        self.numbers.starts_with(front) && self.is_noise_from(front.len())
    }

    // Whether the row is noise from this place on.
    pub fn is_noise_from(&self, at: usize) -> bool {
        at <= self.numbers.len()
            && self
                .numbers
                .iter()
                .enumerate()
                .skip(at)
                .all(|(i, &number)| number == noise(i))
    }
}

// A request on two rows.
pub fn serve(cache: &mut Row, index: &mut Row, page: u64) -> Result<Outcome, Refusal> {
    lru_cache::serve(cache.lend(), index.lend(), page)
}

// A trace on two rows: how many were fetched.
pub fn play(
    cache: &mut Row,
    index: &mut Row,
    trace: &[u64],
    found: &mut [Outcome],
) -> Result<u64, Refusal> {
    lru_cache::play(cache.lend(), index.lend(), trace, found)
}
