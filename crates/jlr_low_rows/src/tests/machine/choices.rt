//! The buffer of a choice.
use super::cell_sets::{one_of, three_of};
use super::slot;
use jlr_machine::choice::Choice;
use jlr_machine::entry::{Chosen, Collected};
use jlr_types::Slot;
use std::alloc::{AllocError, Global};
use std::test::Fail;

fn pend(choice: &mut Choice, number: u32) -> bool {
    let has_room = choice.pending().len() < choice.cells() as usize;
    if has_room {
        choice.pend(Slot::new(number));
    }
    has_room
}

fn add_fresh(choice: &mut Choice, number: u32) -> bool {
    let has_room = choice.fresh().as_slice().len() < 2;
    if has_room {
        choice.add_fresh(Slot::new(number));
    }
    has_room
}

// Puts so many objects behind the pending list, from the last down. Says whether all of it could be done.
fn pend_all(choice: &mut Choice, cells: u32) -> bool {
    let mut all = true;
    for number in 0..cells {
        let pended = pend(choice, cells - 1 - number);
        all = all && pended;
    }
    all
}

fn is_new(choice: &Choice, cells: u32) -> bool {
    choice.cells() == cells && !choice.collects()
}

fn is_filled(choice: &Choice) -> bool {
    choice.collects() && choice.pending().get(9).copied() == slot(120)
}

fn takes_all_that_it_has_room_for(choice: &mut Choice) -> bool {
    let all = pend_all(choice, 130);
    let one_more = pend(choice, 130);
    let fresh = add_fresh(choice, 7) && add_fresh(choice, 8);
    all && !one_more && fresh && is_filled(choice)
}

// Whether so many are pending, with this one last, and these are kept.
fn is_collected(
    alloc: Global,
    collected: &Collected,
    pending: (usize, Option<Slot>),
    kept: &[Slot],
) -> Result<bool, AllocError> {
    let is_pending = collected.pending.as_slice();
    let are_pending = (is_pending.len(), is_pending.last().copied()) == pending;
    let is_kept = collected.kept.to_vec(alloc)?;
    Ok(are_pending && is_kept.as_slice() == kept)
}

// Whether these are fresh too.
fn is_chosen(
    alloc: Global,
    chosen: Chosen,
    pending: (usize, Option<Slot>),
    kept: &[Slot],
    fresh: &[Slot],
) -> Result<bool, AllocError> {
    let are_fresh = chosen.fresh().as_slice() == fresh;
    let collected = match chosen.collected() {
        Some(collected) => is_collected(alloc, collected, pending, kept),
        None => Ok(false),
    };
    drop(chosen);
    Ok(collected? && are_fresh)
}

fn has_all_that_was_chosen(alloc: Global, chosen: Chosen) -> Result<bool, AllocError> {
    let kept = [Slot::new(0), Slot::new(64), Slot::new(129)];
    let fresh = [Slot::new(7), Slot::new(8)];
    is_chosen(alloc, chosen, (130, slot(0)), &kept, &fresh)
}

fn has_chosen_two_alone(alloc: Global, chosen: Chosen) -> Result<bool, AllocError> {
    is_chosen(alloc, chosen, (0, None), &[Slot::new(2)], &[])
}

#[test]
fn a_choice_holds_all_that_it_has_room_for(rt: HostRuntime) -> Result<(), Fail> {
    let set = three_of(rt.alloc())?;
    let mut choice = Choice::new(rt.alloc(), 130)?;
    let was_new = is_new(&choice, 130);
    choice.keep_all(&set);
    drop(set);
    let all = takes_all_that_it_has_room_for(&mut choice);
    let has_all = has_all_that_was_chosen(rt.alloc(), choice.into_chosen());
    assert!(rt; has_all? && all && was_new);
    Ok(())
}

#[test]
fn a_choice_is_used_again(rt: HostRuntime) -> Result<(), Fail> {
    let set = one_of(rt.alloc())?;
    let mut choice = Choice::new(rt.alloc(), 4)?;
    choice.collect();
    let collects = choice.collects();
    choice.clear();
    let again = is_new(&choice, 4);
    choice.keep_all(&set);
    drop(set);
    let has_two = has_chosen_two_alone(rt.alloc(), choice.into_chosen());
    assert!(rt; has_two? && collects && again);
    Ok(())
}
