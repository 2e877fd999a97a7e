// A whole challenge of one of the library's own policies.
ghost use Rattle.std.specs.Prelude.{◌≡◌, ◌≤◌, ◌<◌, length, IfOk, MatchBool, MatchOption, nat_lt};
ghost use Rattle.trace.specs.Kinds.{number_of};
ghost use Rattle.ffi.specs.Contests.{no_contest, Contested, Counted};
ghost use Rattle.ffi.specs.Numbers.{as_unknown, as_refusal};

use crate::packs::{count, refuse, starve, unknown};
use crate::sides::Sides;
use adversary::row_len;
use fifo::Fifo;
use least_requested::LeastRequested;
use lru_cache::{Refusal, Stop};
use policies::{Lru, WithCapacity};
use recency::Capacity;
use std::alloc::Global;
use trace::{PolicyKind, Totals};

// Runs a challenge of a new policy.
fn run<P: WithCapacity + Drop>(heap: Global, sides: Sides) -> Result<Totals, Stop>
    ensures counted { IfOk result (Counted sides.capacity.places sides.h sides.rounds) }
{
    let k = sides.capacity.places;
    let mut row = vec![in heap; 0u64; row_len(k).unwrap()]?;
    let mut keeper = P::with_capacity(heap, k)?;
    Ok(runs::run(&mut keeper, k, sides.h, u32::from(sides.rounds), &mut row).unwrap())
}

// The same for the policy of that kind. The match stands here and in `contest`: a policy is a type parameter, and no function hands a type out.
fn run_kind(heap: Global, kind: PolicyKind, sides: Sides) -> Result<Totals, Stop>
    ensures counted { IfOk result (Counted sides.capacity.places sides.h sides.rounds) }
{
    match kind {
        PolicyKind::Lru => run::<Lru>(heap, sides),
        PolicyKind::Fifo => run::<Fifo>(heap, sides),
        PolicyKind::LeastRequested => run::<LeastRequested>(heap, sides),
    }
}

// The policy of that number.
fn kind_of(number: u64) -> Option<PolicyKind>
    ensures cases { MatchOption result (2 < number) (λ kind. number_of kind ≡ number) }
{
    let number = u8::try_from(number).ok()?;
    PolicyKind::try_from(number).ok()
}

// A whole challenge of the policy of that number with k places beside a schedule with h, and its counts: requests, the policy's fetches, the
// schedule's.
#[unsafe(no_mangle)]
pub extern "C" fn dq_contest(
    heap: Global,
    number: u64,
    k: usize,
    h: usize,
    rounds: u16,
    counts: &mut [u64],
) -> u64
    ensures cases { MatchBool (nat_lt 2 number) ((result ≡ as_unknown number) × (counts.new ≡ counts.old)) (MatchOption (no_contest k h (length counts.old)) (Contested k h rounds counts.old result counts.new) (λ e. (result ≡ as_refusal e) × (counts.new ≡ counts.old))) }
{
    let Some(kind) = kind_of(number) else {
        return unknown(number);
    };
    if counts.len() < 3 {
        return refuse(Refusal::NoCache);
    }
    let Some(capacity) = Capacity::new(k) else {
        return refuse(Refusal::NoCache);
    };
    // `Challenge::begin` tests this too, on a row that is made by then: here it is told where there is no memory as well
    if h == 0 || h > k {
        return refuse(Refusal::BadPlaces(h as u64));
    }
    let sides = Sides {
        capacity,
        h,
        rounds,
    };
    let Ok(told) = run_kind(heap, kind, sides) else {
        return starve();
    };
    counts[..3].copy_from_slice(&[told.asked, told.keeper, told.rival]);
    count(told.asked)
}
