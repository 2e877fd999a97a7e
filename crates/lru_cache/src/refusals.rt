// Why input is turned away. Each reason has a number, and a place that says where.
ghost use Rattle.std.specs.Prelude.{◌≡◌, Some};
ghost use Rattle.lru_cache.specs.Refusals.{number_of, place_of, refusal_bytes};

use crate::checks::PAGE_LIMIT;
use std::error::Error;
use std::fmt;

// Of several that apply the one with the lowest number is told.
#[derive(Clone, Copy, Debug, PartialEq, Eq)]
pub enum Refusal {
    // 1 at 0: the cache row has no room for its capacity, which is to be 1 to 4,096, or the index row is too short for it.
    NoCache,
    // 1 at 1: the cache row says that it holds more pages than it has places.
    Overfull,
    // 2: the page at this place of the cache row stands there twice, or is not below 2^32.
    BadPage(u64),
    // 3: this page was requested, and is not below 2^32.
    BadRequest(u64),
    // 4: a trace of this length is longer than 4,096.
    LongTrace(u64),
    // 5: this number of capacities is 0 or above 4,096.
    BadCapacities(u64),
    // 5: the report row, of this length, is shorter than two numbers for each capacity.
    ShortReport(u64),
    // 6: this many places for the schedule beside a policy is 0 or more than the policy has.
    BadPlaces(u64),
    // 7: what a policy shows breaks the rules, at this place.
    BrokenRule(u64),
    // 8: the adversary would need page 2^32.
    NoPageLeft,
}

impl Refusal {
    // The number of the reason: C is answered one number, and the programs print it.
    pub fn number(self) -> u64
        ensures value { result ≡ number_of self }
    {
        match self {
            Refusal::NoCache | Refusal::Overfull => 1,
            Refusal::BadPage(_) => 2,
            Refusal::BadRequest(_) => 3,
            Refusal::LongTrace(_) => 4,
            Refusal::BadCapacities(_) | Refusal::ShortReport(_) => 5,
            Refusal::BadPlaces(_) => 6,
            Refusal::BrokenRule(_) => 7,
            Refusal::NoPageLeft => 8,
        }
    }

    // Where it applies.
    pub fn place(self) -> u64
        ensures value { result ≡ place_of self }
    {
        match self {
            Refusal::NoCache => 0,
            Refusal::Overfull => 1,
            Refusal::BadPage(n)
            | Refusal::BadRequest(n)
            | Refusal::LongTrace(n)
            | Refusal::BadCapacities(n)
            | Refusal::ShortReport(n)
            | Refusal::BadPlaces(n)
            | Refusal::BrokenRule(n) => n,
            Refusal::NoPageLeft => PAGE_LIMIT,
        }
    }
}

impl fmt::Display for Refusal {
    ghost output = { λ e. Some (refusal_bytes e) };

    fn fmt<W: fmt::Write>(&self, f: &mut fmt::Formatter<W>) -> fmt::Result {
        write!(f, "refused {} at {}", self.number(), self.place())
    }
}

impl Error for Refusal {}
