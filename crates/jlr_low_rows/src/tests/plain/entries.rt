//! Entries, read from words.
use jlr_machine::ask::{Answer, Ask};
use jlr_machine::entry::{Chosen, Collected, Entry};
use jlr_machine::fresh::FreshSlots;
use jlr_machine::items::Items;
use jlr_machine::kept::KeptSlots;
use jlr_types::Slot;
use jlr_words::{answer_of, event_of, parts_of};
use std::alloc::{AllocError, Global};

const ARROW: &str = " -> ";

/// The entry of a row; none where it is no entry.
pub(super) fn entry_of(alloc: Global, row: &str) -> Result<Option<Entry>, AllocError> {
    let (ask, told) = row.split_once(ARROW).unwrap_or((row, ""));
    match ask_of(alloc, ask) {
        Some(ask) => answered(alloc, ask, told),
        None => Ok(None),
    }
}

// The entry of an ask, with the answer and the choice that are told.
fn answered(alloc: Global, ask: Ask, told: &str) -> Result<Option<Entry>, AllocError> {
    let (answer, choice) = told.split_once(", ").unwrap_or((told, ""));
    match answer_of(alloc, answer)? {
        Some(answer) => chosen(alloc, ask, answer, choice),
        None => Ok(None),
    }
}

fn chosen(
    alloc: Global,
    ask: Ask,
    answer: Answer,
    choice: &str,
) -> Result<Option<Entry>, AllocError> {
    let choice = choice_of(alloc, choice)?;
    Ok(Some(Entry {
        seat: 0,
        ask,
        answer,
        choice,
    }))
}

fn ask_of(alloc: Global, text: &str) -> Option<Ask> {
    parts_of(event_of(alloc, text)?).0
}

// ---- Choices

// What stands behind this word, in the part of a choice that begins with it.
fn part<'a>(choice: &'a str, name: &str) -> &'a str {
    for part in choice.split(", ") {
        if let Some(rest) = part.strip_prefix(name) {
            return rest;
        }
    }
    ""
}

fn slot(word: &str) -> Slot {
    Slot::new(word.parse().unwrap_or(u32::MAX))
}

fn slots_of(alloc: Global, text: &str) -> Result<Items<Slot>, AllocError> {
    let mut slots = Items::new(alloc);
    for word in text.split_whitespace() {
        slots.push(slot(word))?;
    }
    Ok(slots)
}

fn kept_of(alloc: Global, text: &str) -> Result<KeptSlots, AllocError> {
    KeptSlots::from_slice(alloc, slots_of(alloc, text)?.as_slice())
}

fn collected_of(alloc: Global, choice: &str) -> Result<Collected, AllocError> {
    Ok(Collected {
        kept: kept_of(alloc, part(choice, "keeps"))?,
        pending: slots_of(alloc, part(choice, "pends"))?,
    })
}

// The slots of new objects. An entry has room for two.
fn fresh_of(text: &str) -> FreshSlots {
    let mut fresh = FreshSlots::new();
    for word in text.split_whitespace() {
        if fresh.as_slice().len() < 2 {
            fresh.push(slot(word));
        }
    }
    fresh
}

fn choice_of(alloc: Global, choice: &str) -> Result<Chosen, AllocError> {
    let fresh = fresh_of(part(choice, "in"));
    if choice.starts_with("keeps") {
        let collected = Some(collected_of(alloc, choice)?);
        return Chosen::new(alloc, collected, fresh);
    }
    Ok(Chosen::plain(fresh))
}
