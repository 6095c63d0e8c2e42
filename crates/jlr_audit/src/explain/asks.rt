//! Asks and answers in words.
use crate::names::ask_name;
use jlr_machine::ask::{Answer, Ask, Handed};
use jlr_plain_asks::operands::{Named, Operands, name_of, operands_of};
use jlr_types::{FieldKind, Layout};
use std::alloc::{AllocError, Global};
use std::str;

fn handle(operand: Named) -> Option<u32> {
    Some(u32::from(operand.handle.number()))
}

/// The numbers in an ask: a handle, that of a field, another handle, and a length or a note.
fn numbers_of(ask: &Ask) -> [Option<u32>; 4] {
    let (first, second) = match operands_of(ask) {
        Operands::Nothing => (None, None),
        Operands::One(first) => (handle(first), None),
        Operands::Two(first, second) => (handle(first), handle(second)),
    };
    let (field, last) = match ask {
        Ask::Put { field, .. }
        | Ask::Get { field, .. }
        | Ask::SetInt { field, .. }
        | Ask::Int { field, .. } => (Some(u32::from(field.number())), None),
        Ask::Array { length, .. } => (None, Some(u32::from(length.number()))),
        Ask::Register { note, .. } => (None, Some(*note)),
        _ => (None, None),
    };
    [first, field, second, last]
}

/// Adds the letters of a layout.
fn push_layout(said: &mut String, layout: &Layout) -> Result<(), AllocError> {
    if layout.is_empty() {
        return said.push_str(" -");
    }
    said.push_str(" ")?;
    for field in 0..layout.len() {
        match layout.get(field) {
            Some(FieldKind::Ref) => said.push_str("r")?,
            _ => said.push_str("i")?,
        }
    }
    Ok(())
}

/// Adds what an ask names beside numbers and a name: the layout of an object, or the integer of a field.
fn push_operand(alloc: Global, said: &mut String, ask: &Ask) -> Result<(), AllocError> {
    match ask {
        Ask::New { layout, .. } => push_layout(said, layout),
        Ask::SetInt { value, .. } => said.push_str(format!(in alloc; " {value}")?.as_str()),
        _ => Ok(()),
    }
}

/// An ask as the command that asks it, if one does, and the mutator that asks.
pub(crate) fn ask_said(alloc: Global, ask: &Ask) -> Result<String, AllocError> {
    let mut said = String::new(alloc);
    said.push_str(ask_name(ask))?;
    if let Some(name) = name_of(ask) {
        said.push_str(" ")?;
        said.push_str(str::from_utf8(name.as_slice()).unwrap_or("?"))?;
    }
    for number in numbers_of(ask) {
        if let Some(number) = number {
            said.push_str(format!(in alloc; " {number}")?.as_str())?;
        }
    }
    push_operand(alloc, &mut said, ask)?;
    if let Some(mutator) = ask.asker() {
        let number = mutator.number();
        said.push_str(format!(in alloc; " of mutator {number}")?.as_str())?;
    }
    Ok(said)
}

fn handed_said(handed: Handed) -> &'static str {
    match handed {
        Handed::Queued => "a reference went to its queue",
        Handed::Lined => "a cleanable went into the cleaner's line",
        Handed::Skipped => "the first one was skipped",
        Handed::Nothing => "there was nothing",
    }
}

/// An answer in words.
pub(crate) fn answer_said(alloc: Global, answer: &Answer) -> Result<String, AllocError> {
    let name = match answer {
        Answer::Handle(handle) => {
            let number = handle.number();
            return Ok(format!(in alloc; "handle {number}")?);
        }
        Answer::Int(number) => return Ok(format!(in alloc; "int {number}")?),
        Answer::Handed(handed) => handed_said(*handed),
        Answer::Refused(by) => {
            let number = by.number();
            return Ok(format!(in alloc; "refused {number}")?);
        }
        Answer::Done => "ok",
        Answer::Truth(true) => "yes",
        Answer::Truth(false) => "no",
        Answer::Data(_) => "data",
        Answer::Wrote(_) => "what was written",
        Answer::Faulted(_) => "a fault",
        Answer::Names(_) | Answer::Notes(_) | Answer::Faults(_) => "a list",
        Answer::Stat(_) => "counts",
        Answer::Job { .. } => "a job",
        Answer::AlreadyDone => "done before",
        Answer::Prepared(_) => "a place for a resource",
        Answer::Out(_) => "a resource",
    };
    let mut said = String::new(alloc);
    said.push_str(name)?;
    Ok(said)
}
