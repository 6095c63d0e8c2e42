//! What was chosen in an entry. Only this file knows how kept, pending and fresh slots lie in memory.
ghost use Rattle.std.specs.Prelude.{◌≡◌, ◌≤◌, ◌<◌, ◌++◌, OnOk, length};
ghost use Rattle.jlr_trace_fields.specs.Reading.{Reads};
ghost use Rattle.jlr_trace_fields.specs.Items.{rising_at};
ghost use Rattle.jlr_trace_fields.specs.Records.{slot_after};
ghost use Rattle.jlr_trace_entries.specs.Choices.{itself, collected_read, collection_read, fresh_read, choice_read};
ghost use Rattle.jlr_trace_entries.specs.Choices.{flags_of as flags_of_choice, spelled_collection, CollectionCounts};
ghost use Rattle.jlr_trace_entries.specs.Choices.{spelled_fresh, spelled_choice, ChoiceCounts};

use jlr_machine::entry::{Chosen, Collected};
use jlr_machine::fresh::FreshSlots;
use jlr_machine::items::Items;
use jlr_machine::kept::KeptSlots;
use jlr_trace_fields::cursor::take_within;
use jlr_trace_fields::fault::ReadError;
use jlr_trace_fields::number::put_u8;
use jlr_trace_fields::parts::items::{put_each, put_list, take_items, take_list};
use jlr_trace_fields::parts::rising::take_rising;
use jlr_types::Slot;
use std::alloc::{AllocError, Global};

/// What a collection kept.
fn kept_at(alloc: Global, bytes: &mut &[u8]) -> Result<KeptSlots, ReadError>
    ensures { Reads (λ x. x) result bytes.new.now (rising_at 4 slot_after itself bytes.old.now) }
{
    let kept: Items<Slot> = take_rising(alloc, bytes)?;
    Ok(KeptSlots::from_slice(alloc, kept.as_slice())?)
}

#[tactic(auto, unfolding(crate::specs::Choices::collected_read))]
fn collected_at(alloc: Global, bytes: &mut &[u8]) -> Result<Collected, ReadError>
    ensures { Reads (λ x. x) result bytes.new.now (collected_read bytes.old.now) }
{
    let kept = kept_at(alloc, bytes)?;
    let pending = take_list(alloc, bytes)?;
    Ok(Collected { kept, pending })
}

/// What a collection did, where there was one.
fn collection_at(
    alloc: Global,
    was_run: bool,
    bytes: &mut &[u8],
) -> Result<Option<Collected>, ReadError>
    ensures { Reads (λ x. x) result bytes.new.now (collection_read was_run bytes.old.now) }
{
    if !was_run {
        return Ok(None);
    }
    let collected = collected_at(alloc, bytes)?;
    Ok(Some(collected))
}

/// The slots of new objects, where there are any.
fn fresh_at(alloc: Global, were_made: bool, bytes: &mut &[u8]) -> Result<FreshSlots, ReadError>
    ensures { Reads (λ x. x) result bytes.new.now (fresh_read were_made bytes.old.now) }
{
    if !were_made {
        return Ok(FreshSlots::new());
    }
    let count = take_within(1, 2, bytes)?;
    let slots = take_items(alloc, count as u32, bytes)?;
    Ok(few(slots.as_slice()))
}

/// These slots, which are at most two.
fn few(slots: &[Slot]) -> FreshSlots
    requires { length slots.now ≤ 2 }
    ensures { result ≡ slots.now }
{
    FreshSlots::from_slice(slots).unwrap()
}

/// What was chosen.
#[tactic(auto, unfolding(crate::specs::Choices::choice_read))]
pub(crate) fn choice_at(alloc: Global, bytes: &mut &[u8]) -> Result<Chosen, ReadError>
    ensures { Reads (λ x. x) result bytes.new.now (choice_read bytes.old.now) }
{
    let flags = take_within(0, 3, bytes)?;
    let collected = collection_at(alloc, flags % 2 == 1, bytes)?;
    match fresh_at(alloc, flags >= 2, bytes) {
        Ok(fresh) => Ok(Chosen::new(alloc, collected, fresh)?),
        Err(error) => {
            drop(collected);
            Err(error)
        }
    }
}

fn flags_of(choice: &Chosen) -> u8
    ensures { result ≡ flags_of_choice choice.now.collected choice.now.fresh }
{
    match (choice.collected(), choice.fresh().as_slice()) {
        (None, []) => 0,
        (Some(_), []) => 1,
        (None, [_, ..]) => 2,
        (Some(_), [_, ..]) => 3,
    }
}

fn put_collection(out: &mut Vec<u8>, choice: &Chosen) -> Result<(), AllocError>
    requires { CollectionCounts choice.now.collected }
    ensures { OnOk result (out.new.items ≡ out.old.items ++ spelled_collection choice.now.collected) }
{
    match choice.collected() {
        None => Ok(()),
        Some(collected) => {
            let kept = collected.kept.to_vec(*out.allocator())?;
            put_list(out, kept.as_slice())?;
            put_list(out, collected.pending.as_slice())
        }
    }
}

fn put_fresh(out: &mut Vec<u8>, slots: &[Slot]) -> Result<(), AllocError>
    requires { length slots.now < 256 }
    ensures { OnOk result (out.new.items ≡ out.old.items ++ spelled_fresh slots.now) }
{
    match slots {
        [] => Ok(()),
        [_, ..] => {
            put_u8(out, slots.len() as u8)?;
            put_each(out, slots)
        }
    }
}

/// Writes what was chosen.
pub(crate) fn put_choice(out: &mut Vec<u8>, choice: &Chosen) -> Result<(), AllocError>
    requires { ChoiceCounts choice.now }
    ensures { OnOk result (out.new.items ≡ out.old.items ++ spelled_choice choice.now) }
{
    put_u8(out, flags_of(choice))?;
    put_collection(out, choice)?;
    put_fresh(out, choice.fresh().as_slice())
}
