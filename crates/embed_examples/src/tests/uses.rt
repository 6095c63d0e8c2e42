//! The cache, the pool and the watcher.
use crate::cache::Cache;
use crate::pool::Pool;
use crate::watcher::Watcher;
use jlr_heap::TokenHeap;
use jlr_types::{Handle, Layout, Limits, Refusal};
use std::alloc::{AllocError, Global};
use std::test::Fail;

// A heap of 256 cells and 4 guards.
fn heap(alloc: Global) -> Result<TokenHeap, AllocError> {
    match Limits::checked(256, 1, 4, 2, 64, 1) {
        Ok(limits) => TokenHeap::new(alloc, limits),
        Err(_) => Err(AllocError),
    }
}

fn fill(heap: &mut TokenHeap, cache: Cache) -> Result<(), Refusal> {
    for key in 0..5 {
        cache.put(heap, key, 10 * i64::from(key))?;
    }
    Ok(())
}

// A cache gives what it keeps, nothing for another key at the same place, and nothing once all is given up.
fn keeps(heap: &mut TokenHeap) -> Result<bool, Refusal> {
    let cache = Cache::new(heap)?;
    fill(heap, cache)?;
    let kept = cache.get(heap, 2)?.unwrap_or(0);
    let other = cache.get(heap, 66)?;
    heap.gc_soft()?;
    let cleared = cache.get(heap, 2)?;
    Ok(kept == 20 && other.is_none() && cleared.is_none())
}

// A cache gives what was put last as often as it is asked: more often than there are handles and cells.
fn lasts(heap: &mut TokenHeap) -> Result<bool, Refusal> {
    let cache = Cache::new(heap)?;
    for key in 0..300 {
        cache.put(heap, key, i64::from(key))?;
        if cache.get(heap, key)? != Some(i64::from(key)) {
            return Ok(false);
        }
    }
    Ok(true)
}

// A pool of two gives no third, and gets back what is given back and what is forgotten.
fn regains(heap: &mut TokenHeap, pool: &mut Pool) -> Result<bool, Refusal> {
    let first = pool.take(heap)?.ok_or(Refusal::NoHandle)?;
    let second = pool.take(heap)?.ok_or(Refusal::NoHandle)?;
    let third = pool.take(heap)?;
    pool.give_back(heap, first)?;
    let given_back = pool.free();
    heap.drop(second.handle())?;
    pool.collect(heap)?;
    Ok(third.is_none() && given_back == 1 && pool.free() == 2)
}

// A pool of five over four guards: what no guard can be made for stays nobody's.
fn runs_out(heap: &mut TokenHeap, pool: &mut Pool) -> Result<bool, Refusal> {
    for _ in 0..4 {
        if pool.take(heap)?.is_none() {
            return Ok(false);
        }
    }
    let fifth = pool.take(heap);
    Ok(matches!(fifth, Err(Refusal::ResourcesFull)) && pool.free() == 1)
}

fn watched(heap: &mut TokenHeap, watcher: &mut Watcher, number: u32) -> Result<Handle, Refusal> {
    let object = heap.object(Layout::new())?;
    watcher.watch(heap, object, number)?;
    Ok(object)
}

// A watcher of two tells nothing while both live, and the death of the second once.
fn tells(heap: &mut TokenHeap, watcher: &mut Watcher) -> Result<bool, Refusal> {
    let _left = watched(heap, watcher, 1)?;
    let right = watched(heap, watcher, 2)?;
    heap.gc()?;
    let early = watcher.next_death(heap)?;
    heap.drop(right)?;
    heap.gc()?;
    let death = watcher.next_death(heap)?.unwrap_or(0);
    let again = watcher.next_death(heap)?;
    Ok(early.is_none() && death == 2 && again.is_none())
}

// The number of the next death, where an object dies.
fn death_of(heap: &mut TokenHeap, watcher: &mut Watcher, object: Handle) -> Result<u32, Refusal> {
    heap.drop(object)?;
    heap.gc()?;
    Ok(watcher.next_death(heap)?.unwrap_or(0))
}

// A watcher tells three deaths, one after the other, each by its own number.
fn tells_each(heap: &mut TokenHeap, watcher: &mut Watcher) -> Result<bool, Refusal> {
    let one = watched(heap, watcher, 11)?;
    let two = watched(heap, watcher, 12)?;
    let three = watched(heap, watcher, 13)?;
    let first = death_of(heap, watcher, one)?;
    let second = death_of(heap, watcher, two)?;
    let third = death_of(heap, watcher, three)?;
    let fourth = watcher.next_death(heap)?;
    Ok(first == 11 && second == 12 && third == 13 && fourth.is_none())
}

// The first of them that does otherwise.
fn first_wrong(
    heap: &mut TokenHeap,
    pool: &mut Pool,
    large: &mut Pool,
    watcher: &mut Watcher,
) -> Result<Option<&'static str>, Refusal> {
    if !keeps(heap)? || !lasts(heap)? {
        return Ok(Some("the cache"));
    }
    if !regains(heap, pool)? || !runs_out(heap, large)? {
        return Ok(Some("the pool"));
    }
    if !tells(heap, watcher)? || !tells_each(heap, watcher)? {
        return Ok(Some("the watcher"));
    }
    Ok(None)
}

// The same with a watcher of its own.
fn wrong_on(
    alloc: Global,
    heap: &mut TokenHeap,
    pool: &mut Pool,
    large: &mut Pool,
) -> Result<Option<&'static str>, Refusal> {
    let mut watcher = Watcher::new(alloc, heap)?;
    first_wrong(heap, pool, large, &mut watcher)
}

#[test]
fn a_cache_a_pool_and_a_watcher_do_what_they_say(rt: HostRuntime) -> Result<(), Fail> {
    let mut pool = Pool::new(rt.alloc(), 2)?;
    let mut large = Pool::new(rt.alloc(), 5)?;
    let mut heap = heap(rt.alloc())?;
    let wrong = wrong_on(rt.alloc(), &mut heap, &mut pool, &mut large);
    drop(heap);
    match wrong? {
        Some(name) => Err(Fail::new(name)),
        None => Ok(()),
    }
}
