//! Figures as a table.
use crate::names::NAMES;
use crate::stats::asks::SEATS;
use crate::stats::figures::Figures;
use crate::stats::kinds::{KIND_NAMES, Sample};
use std::alloc::{AllocError, Global};

fn push_number(alloc: Global, text: &mut String, number: u64) -> Result<(), AllocError> {
    text.push_str(format!(in alloc; " {number:>9}")?.as_str())
}

/// Adds the objects of one moment.
fn push_sample(alloc: Global, text: &mut String, sample: &Sample) -> Result<(), AllocError> {
    let entry = sample.entry;
    text.push_str(format!(in alloc; "{entry:>9}")?.as_str())?;
    for count in &sample.counts {
        push_number(alloc, text, *count)?;
    }
    push_number(alloc, text, sample.open)?;
    text.push_str("\n")
}

/// Adds the objects by kind over time.
fn push_samples(alloc: Global, text: &mut String, figures: &Figures) -> Result<(), AllocError> {
    text.push_str("Objects after so many entries, and files and sockets open\n    after")?;
    for name in KIND_NAMES {
        text.push_str(format!(in alloc; " {name:>9}")?.as_str())?;
    }
    text.push_str("      open\n")?;
    for sample in &figures.samples {
        push_sample(alloc, text, sample)?;
    }
    Ok(())
}

/// Adds one figure.
fn push_figure(
    alloc: Global,
    text: &mut String,
    name: &str,
    number: u64,
) -> Result<(), AllocError> {
    text.push_str(format!(in alloc; "{name:<34}{number:>9}\n")?.as_str())
}

/// Adds what all collections did.
fn push_collections(alloc: Global, text: &mut String, figures: &Figures) -> Result<(), AllocError> {
    let total = figures.total;
    text.push_str("\n")?;
    push_figure(alloc, text, "Collections", figures.collections)?;
    push_figure(alloc, text, "objects freed", total.freed)?;
    push_figure(alloc, text, "soft references kept", total.soft_kept)?;
    push_figure(alloc, text, "soft references cleared", total.soft_cleared)?;
    push_figure(alloc, text, "weak references cleared", total.weak_cleared)?;
    push_figure(
        alloc,
        text,
        "phantom references cleared",
        total.phantom_cleared,
    )?;
    push_figure(
        alloc,
        text,
        "set aside for queues and cleaner",
        total.pending,
    )
}

/// Adds the queues, files and actions.
fn push_rest(alloc: Global, text: &mut String, figures: &Figures) -> Result<(), AllocError> {
    let outcomes = figures.outcomes;
    text.push_str("\n")?;
    push_figure(alloc, text, "Longest queue", figures.longest_queue)?;
    push_figure(
        alloc,
        text,
        "files and sockets open at most",
        figures.most_open,
    )?;
    text.push_str("\n")?;
    push_figure(alloc, text, "Actions that ended well", outcomes.ok)?;
    push_figure(alloc, text, "that failed: notfound", outcomes.not_found)?;
    push_figure(alloc, text, "that failed: denied", outcomes.denied)?;
    push_figure(alloc, text, "that failed: other", outcomes.other)
}

/// Adds the asks by kind and seat.
fn push_asks(alloc: Global, text: &mut String, figures: &Figures) -> Result<(), AllocError> {
    text.push_str("\nAsks            all")?;
    for seat in 0..SEATS {
        if figures.asks.of_seat(seat) > 0 {
            text.push_str(format!(in alloc; " seat {seat:>4}")?.as_str())?;
        }
    }
    text.push_str("\n")?;
    for (kind, name) in NAMES.iter().enumerate() {
        let all = figures.asks.of_kind(kind);
        if all > 0 {
            text.push_str(format!(in alloc; "{name:<9}{all:>10}")?.as_str())?;
            push_row(alloc, text, figures, kind)?;
        }
    }
    Ok(())
}

/// Adds how often each seat asked one kind.
fn push_row(
    alloc: Global,
    text: &mut String,
    figures: &Figures,
    kind: usize,
) -> Result<(), AllocError> {
    for seat in 0..SEATS {
        if figures.asks.of_seat(seat) > 0 {
            push_number(alloc, text, figures.asks.of(kind, seat))?;
        }
    }
    text.push_str("\n")
}

/// The figures as a table.
///
/// # Errors
/// `AllocError` where there is no memory.
pub fn table_of(alloc: Global, figures: &Figures) -> Result<String, AllocError> {
    let mut text = String::new(alloc);
    push_samples(alloc, &mut text, figures)?;
    push_collections(alloc, &mut text, figures)?;
    push_rest(alloc, &mut text, figures)?;
    push_asks(alloc, &mut text, figures)?;
    Ok(text)
}
