// What must come of a day.
use crate::days::{UNTOUCHED, agrees, day, gives, refuses};
use recency::Outcome::{Evicted, Filled, Hit};
use std::array;
use std::test::Fail;
use traces::{TEN, TEN_FIND, TOP, begins, draw};

// Hits, free places and pages that make room, by hand.
#[test]
fn ten_requests(rt: HostRuntime) -> Result<(), Fail> {
    assert!(rt; gives(rt.alloc(), 3, &TEN, &TEN_FIND, &[1, 3, 5])?);
    Ok(())
}

// One place: no request, one, and some in which each page goes for the next.
#[test]
fn one_place(rt: HostRuntime) -> Result<(), Fail> {
    let heap = rt.alloc();
    assert!(rt; gives(heap, 1, &[], &[], &[])?);
    assert!(rt; gives(heap, 1, &[9], &[Filled], &[9])?);
    let some = gives(
        heap,
        1,
        &[1, 1, 2, 1, 3, 3, 2],
        &[
            Filled,
            Hit,
            Evicted(1),
            Evicted(2),
            Evicted(1),
            Hit,
            Evicted(3),
        ],
        &[2],
    )?;
    assert!(rt; some);
    Ok(())
}

// Every request the same.
#[test]
fn one_page(rt: HostRuntime) -> Result<(), Fail> {
    let mut expected = [Hit; 1000];
    expected[0] = Filled;
    assert!(rt; gives(rt.alloc(), 4, &[6; 1000], &expected, &[6])?);
    Ok(())
}

// The smallest page and the largest are found and go like any other.
#[test]
fn first_and_last_page(rt: HostRuntime) -> Result<(), Fail> {
    let expected = [
        Filled,
        Filled,
        Hit,
        Evicted(TOP),
        Evicted(0),
        Evicted(5),
        Hit,
        Hit,
    ];
    assert!(rt;
        gives(
            rt.alloc(),
            2,
            &[0, TOP, 0, 5, TOP, 0, 0, TOP],
            &expected,
            &[TOP, 0]
        )?
    );
    Ok(())
}

// One page more than the most places: the oldest goes, and the others stay in order.
#[test]
fn one_page_too_many(rt: HostRuntime) -> Result<(), Fail> {
    let trace: [u64; 4097] = array::from_fn(|i| i as u64);
    let mut expected = [Filled; 4097];
    expected[4096] = Evicted(0);
    let pages: [u64; 4096] = array::from_fn(|i| 4096 - i as u64);
    assert!(rt; gives(rt.alloc(), 4096, &trace, &expected, &pages)?);
    Ok(())
}

// Days of misses alone, so that each slot leaves its chain for another many times.
#[test]
fn no_page_twice(rt: HostRuntime) -> Result<(), Fail> {
    let heap = rt.alloc();
    let trace: [u64; 10000] = array::from_fn(|i| i as u64);
    assert!(rt; agrees(heap, 3, &trace)? && agrees(heap, 64, &trace)?);
    let apart: [u64; 10000] = array::from_fn(|i| (TOP + 0x1_0001 * i as u64) % 0x1_0000_0000);
    assert!(rt; agrees(heap, 64, &apart)?);
    Ok(())
}

#[test]
fn drawn(rt: HostRuntime) -> Result<(), Fail> {
    let heap = rt.alloc();
    let mut trace = [0u64; 10000];
    draw(&mut trace, 1, 12);
    for k in [1, 2, 5, 12] {
        assert!(rt; agrees(heap, k, &trace)?, "{k} places");
    }
    draw(&mut trace, 2, 5000);
    for k in [1000, 4096] {
        assert!(rt; agrees(heap, k, &trace)?, "{k} places");
    }
    Ok(())
}

// Into a slice that is too short, and into one that is longer.
#[test]
fn listed_as_far_as_it_goes(rt: HostRuntime) -> Result<(), Fail> {
    let heap = rt.alloc();
    let mut row = [0u64; 32];
    let mut short = [UNTOUCHED; 2];
    let (_, three) = day(heap, &mut row, 3, &[1, 2, 3, 1], &mut short)?;
    assert!(rt; three == 3 && begins(&short, &[1, 3], &UNTOUCHED));
    let mut long = [UNTOUCHED; 5];
    let (_, two) = day(heap, &mut row, 3, &[1, 2, 1], &mut long)?;
    assert!(rt; two == 2 && begins(&long, &[1, 2], &UNTOUCHED));
    Ok(())
}

// No capacity, and a row one number too short.
#[test]
fn not_cleared(rt: HostRuntime) -> Result<(), Fail> {
    let heap = rt.alloc();
    for (len, k) in [(40000, 0), (40000, 4097), (36868, 4096), (13, 1), (0, 1)] {
        assert!(rt; refuses(heap, len, k)?, "{len} numbers for {k}");
    }
    Ok(())
}
