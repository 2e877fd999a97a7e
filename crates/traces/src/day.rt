// Days of many requests.
ghost use Rattle.std.specs.Prelude.{◌≡◌, ℕ, ◌+◌, ◌*◌, ◌/◌, ◌%◌, ◌<◌, ◌≤◌, IfOk, Some, replicate, slice_index_or, vec_len};
ghost use Rattle.traces.specs.Kind.{IsMade};

use crate::kind::{KINDS, Kind};
use std::alloc::{AllocError, Global};
use std::{array, fmt};

// So many requests of a kind over so many pages.
#[derive(Clone, Copy, Debug)]
pub struct Day {
    pub requests: usize,
    pub pages: u64,
    pub kind: Kind,
}

impl fmt::Display for Day {
    ghost use Rattle.traces.specs.Day.{text};

    ghost output = { λ day. Some (text day) };

    fn fmt<W: fmt::Write>(&self, f: &mut fmt::Formatter<W>) -> fmt::Result {
        let Day {
            requests,
            pages,
            kind,
        } = *self;
        write!(f, "{requests} requests over {pages} pages, {kind}")
    }
}

impl Day {
    // One of twelve short days of a kind, from 7 requests over 2 pages on.
    pub fn short(number: usize, kind: Kind) -> Day
        requires { number < 12 }
        ensures requests { result.requests ≡ 40 * number + 7 }
        ensures pages { result.pages ≡ 9 * number + 2 }
        ensures kind { result.kind ≡ kind }
    {
        Day {
            requests: 40 * number + 7,
            pages: 9 * number as u64 + 2,
            kind,
        }
    }

    // Its requests.
    pub fn trace(self, heap: Global) -> Result<Vec<u64>, AllocError>
        ensures long { IfOk result (λ trace. vec_len trace ≡ self.requests) }
        ensures none { self.pages ≡ 0 → IfOk result (λ trace. trace.items ≡ replicate self.requests 0) }
        ensures made { 0 < self.pages → IfOk result (λ trace. IsMade self.kind self.pages trace.items) }
    {
        let mut trace = vec![in heap; 0; self.requests]?;
        self.kind.fill(&mut trace, self.pages);
        Ok(trace)
    }
}

// The short days: three of each of the twelve, one for each kind.
pub fn short_days() -> [Day; 36]
    ensures requests { (i : ℕ) (e : Day) → i < 36 → (slice_index_or result i e).requests ≡ 40 * (i / 3) + 7 }
    ensures pages { (i : ℕ) (e : Day) → i < 36 → (slice_index_or result i e).pages ≡ 9 * (i / 3) + 2 }
    ensures kind { (i : ℕ) (e : Day) → i < 36 → (slice_index_or result i e).kind ≡ slice_index_or KINDS (i % 3) e.kind }
{
    array::from_fn(|i| Day::short(i / 3, KINDS[i % 3]))
}
