// What a function answers as one number: a tag in the low byte, which says what happened, and above it a page, a count or a place. C has no
// enums with values in them.
ghost use Rattle.std.specs.Prelude.{◌≡◌, ◌<◌};
ghost use Rattle.ffi.specs.Numbers.{packed, as_count, as_page, as_unknown, starved, as_refusal, as_told};

use lru_cache::{Outcome, Refusal};

// The tags.
const HIT: u64 = 0;

const FILLED: u64 = 1;

const EVICTED: u64 = 2;

const COUNTED: u64 = 3;

const PAGE_NAMED: u64 = 4;

const NO_POLICY: u64 = 5;

const NO_MEMORY: u64 = 6;
// from here on, in the order of their numbers
const REFUSALS: u64 = 16;

// The largest number that fits above the tag.
const LARGEST: u64 = 0xff_ffff_ffff_ffff;

// A value that does not fit is told as the largest that does.
#[tactic(auto, unfolding(crate::specs::Numbers::packed))]
fn pack(tag: u64, value: u64) -> u64
    requires small { tag < 256 }
    ensures value { result ≡ packed tag value }
{
    tag + 256 * value.min(LARGEST)
}

// Something was done, and this many are counted.
pub(crate) fn count(n: u64) -> u64
    ensures value { result ≡ as_count n }
{
    pack(COUNTED, n)
}

// This page is requested.
pub(crate) fn name(page: u64) -> u64
    ensures value { result ≡ as_page page }
{
    pack(PAGE_NAMED, page)
}

// There is no policy of that number.
pub(crate) fn unknown(number: u64) -> u64
    ensures value { result ≡ as_unknown number }
{
    pack(NO_POLICY, number)
}

// There is no memory.
pub(crate) fn starve() -> u64
    ensures value { result ≡ starved }
{
    pack(NO_MEMORY, 0)
}

// Something was turned away.
pub(crate) fn refuse(refusal: Refusal) -> u64
    ensures value { result ≡ as_refusal refusal }
{
    pack(REFUSALS + refusal.number(), refusal.place())
}

// A request was served, or turned away.
pub(crate) fn tell(reply: Result<Outcome, Refusal>) -> u64
    ensures value { result ≡ as_told reply }
{
    match reply {
        Ok(Outcome::Hit) => pack(HIT, 0),
        Ok(Outcome::Filled) => pack(FILLED, 0),
        Ok(Outcome::Evicted(page)) => pack(EVICTED, page),
        Err(refusal) => refuse(refusal),
    }
}
