//! What is wrong with an entry where it stands, and with an image.
ghost use Rattle.std.specs.Prelude.{IfOk, IfNone, IsSome};
ghost use Rattle.jlr_machine.specs.WellFormed.{IsWellFormed, IsImage};

use crate::explain::asks::{answer_said, ask_said};
use crate::explain::rules::rule_broken;
use jlr_machine::entry::Entry;
use jlr_machine::machine::Machine;
use jlr_plain_images::image::image_plain;
use jlr_trace_fields::parts::record::Placed;
use std::alloc::{AllocError, Global};

/// What is wrong with an entry where it stands.
pub(crate) fn said_of(
    alloc: Global,
    machine: &Machine,
    number: u64,
    entry: &Entry,
) -> Result<String, AllocError>
    requires { IsWellFormed machine.now }
{
    let seat = entry.seat;
    let ask = ask_said(alloc, &entry.ask)?;
    let answer = answer_said(alloc, &entry.answer)?;
    let rule = rule_broken(alloc, machine, entry)?;
    Ok(format!(in alloc; "entry {number} of seat {seat}, {ask}, answered {answer}: {rule}")?)
}

fn sentence(alloc: Global, words: &str) -> Result<Option<String>, AllocError>
    ensures { IfOk result (λ o. IsSome o) }
{
    let mut said = String::new(alloc);
    said.push_str(words)?;
    Ok(Some(said))
}

/// What is wrong with an image, beside which these objects lie in slots that are no cells; none where it may be one.
pub(crate) fn image_said(
    alloc: Global,
    image: &Machine,
    strays: &[Placed],
) -> Result<Option<String>, AllocError>
    ensures { IfOk result (λ o. IfNone o (IsImage image.now)) }
{
    if !strays.is_empty() {
        return sentence(alloc, "the image has an object in a slot that is no cell");
    }
    if !image_plain(image) {
        return sentence(alloc, "the image is not well formed");
    }
    Ok(None)
}
