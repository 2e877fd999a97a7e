// Cases for a function that writes numbers for m capacities into a row, most of them at the edges of what it takes.
ghost use Rattle.std.specs.Prelude.{◌≡◌, ◌==◌, IfOk, drop, replicate};
ghost use Rattle.std.specs.List.{list_all};
ghost use Rattle.traces.specs.Cases.{Lists, is_shown, rest_text};

use crate::day::Day;
use crate::kind::Kind;
use crate::marks::is_marked;
use crate::worked::{ROUNDS, TEN, TOP};
use std::alloc::{AllocError, Global};

// What a row holds before.
const MARK: u64 = 7;

// The requests of a case.
#[derive(Clone, Copy)]
pub enum Requests {
    Listed(&'static [u64]),
    Made(Day),
}

#[derive(Clone, Copy)]
pub struct Case {
    pub name: &'static str,
    pub requests: Requests,
    pub m: usize,
    // how many numbers the row has
    pub room: usize,
}

impl Case {
    // Its requests.
    pub fn trace(&self, heap: Global) -> Result<Vec<u64>, AllocError>
        ensures { IfOk result (λ trace. Lists self.now.requests trace.items) }
    {
        match self.requests {
            Requests::Listed(pages) => Vec::from_slice(heap, pages),
            Requests::Made(day) => day.trace(heap),
        }
    }

    // The row, with a mark in every place.
    pub fn row(&self, heap: Global) -> Result<Vec<u64>, AllocError>
        ensures { IfOk result (λ row. row.items ≡ replicate self.now.room MARK) }
    {
        vec![in heap; MARK; self.room]
    }

    // Whether the numbers of c places are shown: of the first four, of 63 and 64, and of the last.
    pub fn shows(&self, c: usize) -> bool
        ensures { result ≡ is_shown self.now.m c }
    {
        c <= 4 || c == 63 || c == 64 || c == self.m
    }
}

// Whether each number from a place on is as it was.
pub fn is_kept(row: &[u64], from: usize) -> bool
    ensures { result ≡ list_all (λ x. x == MARK) (drop from row.now) }
{
    is_marked(row, from, &MARK)
}

// What is said of the numbers from a place on.
pub fn rest(row: &[u64], from: usize) -> &'static str
    ensures { result.now ≡ rest_text (list_all (λ x. x == MARK) (drop from row.now)) }
{
    if is_kept(row, from) {
        "the rest as it was"
    } else {
        "the rest is not as it was"
    }
}

// Days that are worked out by hand.
pub const WORKED: [Case; 2] = [
    Case {
        name: "ten requests",
        requests: Requests::Listed(&TEN),
        m: 4,
        room: 8,
    },
    Case {
        name: "1 2 3 4 three times over",
        requests: Requests::Listed(&ROUNDS),
        m: 4,
        room: 8,
    },
];

// The largest page is taken.
pub const LARGEST_PAGE: Case = Case {
    name: "the largest page",
    requests: Requests::Listed(&[TOP, 0, TOP]),
    m: 1,
    room: 2,
};

// Traces that are refused.
pub const BAD_TRACES: [Case; 2] = [
    Case {
        name: "a page that is not below 2^32",
        requests: Requests::Listed(&[1, 0x1_0000_0000, 0x1_0000_0001]),
        m: 1,
        room: 2,
    },
    Case {
        name: "4097 requests",
        requests: Requests::Listed(&[9; 4097]),
        m: 1,
        room: 2,
    },
];

// A trace and a number of capacities that are both refused.
pub const BAD_TWICE: [Case; 1] = [Case {
    name: "4097 requests, no capacity",
    requests: Requests::Listed(&[9; 4097]),
    m: 0,
    room: 0,
}];

// Capacities that are refused, and rows that are too short for them.
pub const BAD_CAPACITIES: [Case; 6] = [
    Case {
        name: "no capacity",
        requests: Requests::Listed(&[1]),
        m: 0,
        room: 2,
    },
    Case {
        name: "4097 capacities",
        requests: Requests::Listed(&[1]),
        m: 4097,
        room: 8194,
    },
    Case {
        name: "2^64 - 1 capacities",
        requests: Requests::Listed(&[1]),
        m: usize::MAX,
        room: 2,
    },
    Case {
        name: "a row one too short for 4",
        requests: Requests::Listed(&[1]),
        m: 4,
        room: 7,
    },
    Case {
        name: "a row one too short for 4096",
        requests: Requests::Listed(&[1]),
        m: 4096,
        room: 8191,
    },
    Case {
        name: "no row",
        requests: Requests::Listed(&[1]),
        m: 1,
        room: 0,
    },
];

// The largest days that are taken.
pub const LARGEST: [Case; 3] = [
    Case {
        name: "4096 requests for one page",
        requests: Requests::Listed(&[9; 4096]),
        m: 4096,
        room: 8192,
    },
    Case {
        name: "4096 requests over 64 pages",
        requests: Requests::Made(Day {
            requests: 4096,
            pages: 64,
            kind: Kind::InTurn,
        }),
        m: 4096,
        room: 8192,
    },
    Case {
        name: "4096 different pages",
        requests: Requests::Made(Day {
            requests: 4096,
            pages: 4096,
            kind: Kind::InTurn,
        }),
        m: 4096,
        room: 8192,
    },
];
