// Each reason to turn a request away, and its edge.
ghost use Rattle.std.specs.Prelude.{◌+◌, ◌≤◌, length};

use crate::refusals::{before, serves};
use lru_cache::Outcome::{Evicted, Filled, Hit};
use lru_cache::PAGE_LIMIT;
use lru_cache::Refusal::{BadPage, NoCache, Overfull};
use std::test::Fail;
use traces::TOP;

// Writes a row of this capacity that is full: with these pages, and then 1, 2 and so on.
fn fill(row: &mut [u64], k: u64, front: &[u64])
    requires { 2 + length front.now ≤ length row.old }
{
    row[..2].fill(k);
    row[2..2 + front.len()].copy_from_slice(front);
    for (number, next) in row[2 + front.len()..].iter_mut().zip(1..) {
        *number = next;
    }
}

#[test]
fn no_room_for_a_capacity(rt: HostRuntime) -> Result<(), Fail> {
    let heap = rt.alloc();
    assert!(rt; before(heap, &[], 0, 100).refuses(NoCache)?);
    assert!(rt; before(heap, &[3], 1, 100).refuses(NoCache)?);
    assert!(rt; before(heap, &[3, 0], 2, 100).refuses(NoCache)?);
    Ok(())
}

#[test]
fn no_capacity(rt: HostRuntime) -> Result<(), Fail> {
    let heap = rt.alloc();
    assert!(rt; before(heap, &[0, 0], 20, 36900).refuses(NoCache)?);
    assert!(rt; before(heap, &[4097, 0], 4200, 36900).refuses(NoCache)?);
    assert!(rt; before(heap, &[0xffff_ffff_ffff_ffff, 0], 4200, 36900).refuses(NoCache)?);
    assert!(rt; before(heap, &[0xffff_ffff_ffff_fffe, 0], 2, 36900).refuses(NoCache)?);
    Ok(())
}

#[test]
fn largest_capacity(rt: HostRuntime) -> Result<(), Fail> {
    let heap = rt.alloc();
    let mut full = [0u64; 4098];
    fill(&mut full, 4096, &[]);
    let mut after = [0u64; 4098];
    fill(&mut after, 4096, &[7000]);
    assert!(rt; serves(heap, 4096, &full, 7000, Evicted(4096), &after)?);
    assert!(rt; before(heap, &full, 4097, 36869).refuses(NoCache)?);
    assert!(rt; before(heap, &full, 4098, 36868).refuses(NoCache)?);
    Ok(())
}

#[test]
fn smallest_capacity(rt: HostRuntime) -> Result<(), Fail> {
    let heap = rt.alloc();
    assert!(rt; serves(heap, 1, &[1, 0], 9, Filled, &[1, 1, 9])?);
    assert!(rt; serves(heap, 1, &[1, 1, 9], 9, Hit, &[1, 1, 9])?);
    assert!(rt; serves(heap, 1, &[1, 1, 9], 0, Evicted(9), &[1, 1, 0])?);
    assert!(rt; before(heap, &[1, 0], 2, 14).refuses(NoCache)?);
    assert!(rt; before(heap, &[1, 0, 0], 3, 13).refuses(NoCache)?);
    Ok(())
}

// One number too short, the cache row or the index row.
#[test]
fn short_rows(rt: HostRuntime) -> Result<(), Fail> {
    let heap = rt.alloc();
    assert!(rt; serves(heap, 3, &[3, 1, 8], 7, Filled, &[3, 2, 7, 8, 0])?);
    assert!(rt; before(heap, &[3, 1, 8], 4, 32).refuses(NoCache)?);
    assert!(rt; before(heap, &[3, 1, 8], 5, 31).refuses(NoCache)?);
    assert!(rt; before(heap, &[3, 1, 8], 5, 0).refuses(NoCache)?);
    Ok(())
}

// As many pages as places, and one more.
#[test]
fn too_many_pages(rt: HostRuntime) -> Result<(), Fail> {
    let heap = rt.alloc();
    assert!(rt; serves(heap, 3, &[3, 3, 6, 7, 8], 5, Evicted(8), &[3, 3, 5, 6, 7])?);
    assert!(rt; before(heap, &[3, 4, 6, 7, 8, 9], 6, 40).refuses(Overfull)?);
    assert!(rt; before(heap, &[3, 0xffff_ffff_ffff_ffff, 6, 7, 8], 5, 32).refuses(Overfull)?);
    Ok(())
}

// The second of two is told, wherever they stand, and the first of several pairs.
#[test]
fn a_page_twice(rt: HostRuntime) -> Result<(), Fail> {
    let heap = rt.alloc();
    assert!(rt; before(heap, &[4, 4, 6, 6, 7, 8], 6, 41).refuses(BadPage(3))?);
    assert!(rt; before(heap, &[4, 4, 6, 7, 8, 6], 6, 41).refuses(BadPage(5))?);
    assert!(rt; before(heap, &[4, 4, 6, 7, 7, 6], 6, 41).refuses(BadPage(4))?);
    assert!(rt; before(heap, &[4, 4, 0, 7, 0, 6], 6, 41).refuses(BadPage(4))?);
    assert!(rt; serves(heap, 4, &[4, 2, 6, 7, 7, 6], 6, Hit, &[4, 2, 6, 7, 0, 0])?);
    Ok(())
}

#[test]
fn a_page_twice_among_many(rt: HostRuntime) -> Result<(), Fail> {
    let heap = rt.alloc();
    let mut full = [0u64; 4098];
    fill(&mut full, 4096, &[]);
    full[4097] = 1;
    assert!(rt; before(heap, &full, 4098, 36869).refuses(BadPage(4097))?);
    Ok(())
}

#[test]
fn a_page_too_large(rt: HostRuntime) -> Result<(), Fail> {
    let heap = rt.alloc();
    assert!(rt; serves(heap, 3, &[3, 3, TOP, 7, 8], 7, Hit, &[3, 3, 7, TOP, 8])?);
    assert!(rt; before(heap, &[3, 3, PAGE_LIMIT, 7, 8], 5, 32).refuses(BadPage(2))?);
    assert!(rt; before(heap, &[3, 3, 7, 8, PAGE_LIMIT], 5, 32).refuses(BadPage(4))?);
    assert!(rt; before(heap, &[3, 3, 7, PAGE_LIMIT, PAGE_LIMIT], 5, 32).refuses(BadPage(3))?);
    assert!(rt; serves(heap, 3, &[3, 2, 7, 8, PAGE_LIMIT], 8, Hit, &[3, 2, 8, 7, 0])?);
    Ok(())
}

#[test]
fn a_request_too_large(rt: HostRuntime) -> Result<(), Fail> {
    let heap = rt.alloc();
    assert!(rt; serves(heap, 3, &[3, 2, 7, 8], TOP, Filled, &[3, 3, TOP, 7, 8])?);
    assert!(rt; serves(heap, 3, &[3, 2, 7, 8], 0, Filled, &[3, 3, 0, 7, 8])?);
    assert!(rt; before(heap, &[3, 2, 7, 8], 5, 32).refuses_page(PAGE_LIMIT)?);
    assert!(rt; before(heap, &[3, 2, 7, 8], 5, 32).refuses_page(0xffff_ffff_ffff_ffff)?);
    Ok(())
}

// Of several reasons the one with the lowest number is told. That the request is too large is never told of a row that is none.
#[test]
fn two_at_once(rt: HostRuntime) -> Result<(), Fail> {
    let heap = rt.alloc();
    assert!(rt; before(heap, &[3, 4, 6, 6, PAGE_LIMIT], 4, 32).refuses(NoCache)?);
    assert!(rt; before(heap, &[3, 4, 6, 6, PAGE_LIMIT], 5, 31).refuses(NoCache)?);
    assert!(rt; before(heap, &[3, 4, 6, 6, PAGE_LIMIT], 5, 32).refuses(Overfull)?);
    assert!(rt; before(heap, &[3, 3, PAGE_LIMIT, 6, 6], 5, 32).refuses(BadPage(2))?);
    assert!(rt; before(heap, &[3, 3, 6, 6, PAGE_LIMIT], 5, 32).refuses(BadPage(3))?);
    Ok(())
}
