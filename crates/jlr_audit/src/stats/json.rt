//! Figures as JSON, in one line.
use crate::names::NAMES;
use crate::stats::asks::SEATS;
use crate::stats::figures::{Collection, Figures};
use crate::stats::kinds::{KIND_NAMES, Sample};
use std::alloc::{AllocError, Global};

/// Adds a name and its number, behind a comma unless it is the first.
fn push_member(
    alloc: Global,
    text: &mut String,
    is_first: bool,
    name: &str,
    number: u64,
) -> Result<(), AllocError> {
    if !is_first {
        text.push_str(",")?;
    }
    text.push_str(format!(in alloc; "\"{name}\":{number}")?.as_str())
}

/// Adds the objects of one moment.
fn push_sample(alloc: Global, text: &mut String, sample: &Sample) -> Result<(), AllocError> {
    text.push_str("{")?;
    push_member(alloc, text, true, "after", sample.entry)?;
    for (name, count) in KIND_NAMES.iter().zip(sample.counts.iter()) {
        push_member(alloc, text, false, name, *count)?;
    }
    push_member(alloc, text, false, "open", sample.open)?;
    text.push_str("}")
}

/// Adds the objects by kind over time.
fn push_samples(alloc: Global, text: &mut String, figures: &Figures) -> Result<(), AllocError> {
    text.push_str(",\"objects\":[")?;
    let mut is_first = true;
    for sample in &figures.samples {
        if !is_first {
            text.push_str(",")?;
        }
        push_sample(alloc, text, sample)?;
        is_first = false;
    }
    text.push_str("]")
}

/// Adds what a collection did.
fn push_collection(
    alloc: Global,
    text: &mut String,
    collection: &Collection,
) -> Result<(), AllocError> {
    text.push_str("{")?;
    push_member(alloc, text, true, "entry", collection.entry)?;
    push_member(alloc, text, false, "found", collection.found)?;
    push_member(alloc, text, false, "freed", collection.freed)?;
    push_member(alloc, text, false, "soft_kept", collection.soft_kept)?;
    push_member(alloc, text, false, "soft_cleared", collection.soft_cleared)?;
    push_member(alloc, text, false, "weak_cleared", collection.weak_cleared)?;
    push_member(
        alloc,
        text,
        false,
        "phantom_cleared",
        collection.phantom_cleared,
    )?;
    push_member(alloc, text, false, "pending", collection.pending)?;
    text.push_str("}")
}

/// Adds the collections: how many, and the first thousand one by one.
fn push_collections(alloc: Global, text: &mut String, figures: &Figures) -> Result<(), AllocError> {
    text.push_str(",")?;
    push_member(alloc, text, true, "collections", figures.collections)?;
    text.push_str(",\"each\":[")?;
    let mut is_first = true;
    for collection in &figures.each {
        if !is_first {
            text.push_str(",")?;
        }
        push_collection(alloc, text, collection)?;
        is_first = false;
    }
    text.push_str("],\"all\":")?;
    push_collection(alloc, text, &figures.total)
}

/// Adds the queues, files and actions.
fn push_rest(alloc: Global, text: &mut String, figures: &Figures) -> Result<(), AllocError> {
    let outcomes = figures.outcomes;
    push_member(alloc, text, false, "longest_queue", figures.longest_queue)?;
    push_member(alloc, text, false, "most_open", figures.most_open)?;
    text.push_str(",\"actions\":{")?;
    push_member(alloc, text, true, "ok", outcomes.ok)?;
    push_member(alloc, text, false, "notfound", outcomes.not_found)?;
    push_member(alloc, text, false, "denied", outcomes.denied)?;
    push_member(alloc, text, false, "other", outcomes.other)?;
    text.push_str("}")
}

/// Adds what a seat asked.
fn push_seat(
    alloc: Global,
    text: &mut String,
    figures: &Figures,
    seat: usize,
) -> Result<(), AllocError> {
    text.push_str(format!(in alloc; "\"{seat}\":{{")?.as_str())?;
    push_member(alloc, text, true, "all", figures.asks.of_seat(seat))?;
    for (kind, name) in NAMES.iter().enumerate() {
        let count = figures.asks.of(kind, seat);
        if count > 0 {
            push_member(alloc, text, false, name, count)?;
        }
    }
    text.push_str("}")
}

/// Adds the asks of each seat by kind.
fn push_asks(alloc: Global, text: &mut String, figures: &Figures) -> Result<(), AllocError> {
    text.push_str(",\"asks\":{")?;
    let mut is_first = true;
    for seat in 0..SEATS {
        if figures.asks.of_seat(seat) > 0 {
            if !is_first {
                text.push_str(",")?;
            }
            push_seat(alloc, text, figures, seat)?;
            is_first = false;
        }
    }
    text.push_str("}")
}

/// The figures as JSON: one object, in one line.
///
/// # Errors
/// `AllocError` where there is no memory.
pub fn json_of(alloc: Global, figures: &Figures) -> Result<String, AllocError> {
    let mut text = String::new(alloc);
    text.push_str("{")?;
    push_member(alloc, &mut text, true, "entries", figures.entries)?;
    push_samples(alloc, &mut text, figures)?;
    push_collections(alloc, &mut text, figures)?;
    push_rest(alloc, &mut text, figures)?;
    push_asks(alloc, &mut text, figures)?;
    text.push_str("}\n")?;
    Ok(text)
}
