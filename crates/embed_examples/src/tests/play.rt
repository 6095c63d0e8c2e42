//! Playing lists.
use super::asks::called;
use super::files;
use super::lists::{TITLE, is_row, limits};
use jlr_embed::Unrecorded;
use jlr_heap::Heap;
use jlr_heap::keeper::Keeper;
use jlr_heap::recorded::Recorded;
use jlr_words::{event_of, is_reply};
use std::alloc::{AllocError, Global};
use std::test::Fail;

// Whether a call gives what a row says.
fn gives<K: Keeper<Held = u32>>(
    alloc: Global,
    heap: &mut Heap<K>,
    ask: &str,
    wanted: &str,
) -> bool {
    let Some(event) = event_of(alloc, ask) else {
        return false;
    };
    match called(heap, &event) {
        Some(reply) => is_reply(&reply, wanted),
        None => false,
    }
}

// Whether a row is as it says.
fn holds<K: Keeper<Held = u32>>(alloc: Global, heap: &mut Heap<K>, row: &str) -> bool {
    match row.split_once(" -> ") {
        Some((ask, wanted)) => gives(alloc, heap, ask, wanted),
        None => match row {
            "by_hand" => {
                heap.settle_after_calls(false);
                true
            }
            "by_itself" => {
                heap.settle_after_calls(true);
                true
            }
            "settle" => {
                heap.settle();
                true
            }
            _ => false,
        },
    }
}

// The first row that is not as it says.
fn first_wrong<'a, K: Keeper<Held = u32>>(
    alloc: Global,
    heap: &mut Heap<K>,
    rows: &'a str,
) -> Option<&'a str> {
    for row in rows.lines() {
        let row = row.trim();
        if is_row(row) && !holds(alloc, heap, row) {
            return Some(row);
        }
    }
    None
}

// The same on a heap of its own, of which no history is kept.
fn wrong_unrecorded<'a>(alloc: Global, rows: &'a str) -> Result<Option<&'a str>, AllocError> {
    let mut heap: Heap<Unrecorded<u32>> = Heap::new(alloc, limits()?)?;
    let wrong = first_wrong(alloc, &mut heap, rows);
    drop(heap);
    Ok(wrong)
}

// A heap that leaves a book.
fn recorded_heap(alloc: Global) -> Result<Heap<Recorded<u32>>, AllocError> {
    match Heap::over(Recorded::new(alloc, limits()?)?) {
        Ok(heap) => Ok(heap),
        Err(declined) => {
            drop(declined);
            Err(AllocError)
        }
    }
}

// The same on such a heap.
fn wrong_recorded<'a>(alloc: Global, rows: &'a str) -> Result<Option<&'a str>, AllocError> {
    let mut heap = recorded_heap(alloc)?;
    let wrong = first_wrong(alloc, &mut heap, rows);
    let book = heap.into_keeper().into_book();
    let is_empty = book.last() == 0;
    drop(book);
    Ok(wrong.or(if is_empty { Some("no entry") } else { None }))
}

// The same on both.
fn wrong_with_numbers<'a>(alloc: Global, rows: &'a str) -> Result<Option<&'a str>, AllocError> {
    match wrong_unrecorded(alloc, rows)? {
        Some(row) => Ok(Some(row)),
        None => wrong_recorded(alloc, rows),
    }
}

/// What the guards of a list's heap hold.
pub(super) enum Guarded {
    Numbers,
    Files,
}

// The first row of a list that is not as it says.
fn wrong_in<'a>(
    alloc: Global,
    guarded: &Guarded,
    rows: &'a str,
) -> Result<Option<&'a str>, AllocError> {
    match guarded {
        Guarded::Numbers => wrong_with_numbers(alloc, rows),
        Guarded::Files => files::wrong_in(alloc, rows),
    }
}

/// The rows of all lists are as they say.
pub(super) fn play_all(alloc: Global, guarded: &Guarded, lists: &str) -> Result<(), Fail> {
    for list in lists.split(TITLE).skip(1) {
        let (title, rows) = list.split_once('\n').ok_or("a list without rows")?;
        if let Some(row) = wrong_in(alloc, guarded, rows)? {
            return Err(Fail::new(format_args!("{title}: {row}")));
        }
    }
    Ok(())
}
