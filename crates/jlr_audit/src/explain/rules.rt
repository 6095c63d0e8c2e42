//! Which rule an entry breaks.
ghost use Rattle.jlr_machine.specs.WellFormed.{IsWellFormed};

use crate::explain::asks::answer_said;
use crate::explain::due::due_answer;
use crate::explain::refusals::reason;
use jlr_machine::ask::{Answer, Ask};
use jlr_machine::entry::{Chosen, Entry};
use jlr_machine::machine::Machine;
use jlr_plain::collecting::may_collect_plain;
use jlr_plain::room::fresh_slots;
use jlr_plain_asks::answers::replies::is_reply;
use jlr_plain_asks::refusals::refusal_plain;
use jlr_plain_collections::left::collected_plain;
use jlr_types::Refusal;
use std::alloc::{AllocError, Global};

fn text(alloc: Global, words: &str) -> Result<String, AllocError> {
    let mut text = String::new(alloc);
    text.push_str(words)?;
    Ok(text)
}

fn chooses(choice: &Chosen) -> bool {
    choice.collected().is_some() || !choice.fresh().as_slice().is_empty()
}

/// Of an ask that has to be refused.
fn when_refused(alloc: Global, by: Refusal, entry: &Entry) -> Result<String, AllocError> {
    let number = by.number();
    let reason = reason(by);
    match entry.answer {
        Answer::Refused(answered) if answered.number() == number && chooses(&entry.choice) => {
            text(alloc, "a refused ask collects nothing and makes no object")
        }
        _ => Ok(format!(in alloc; "it has to be refused {number}, since {reason}")?),
    }
}

/// Of an answer that refuses an ask which nothing refuses.
fn when_answered_refused(alloc: Global, by: Refusal) -> Result<String, AllocError> {
    match by {
        Refusal::HeapFull => text(
            alloc,
            "a full heap is answered only behind a full collection that clears all soft references and leaves too few cells",
        ),
        Refusal::NoMemory => text(
            alloc,
            "because memory runs out no end of a call is refused, and nothing is collected or made",
        ),
        _ => {
            let number = by.number();
            let reason = reason(by);
            Ok(format!(in alloc; "refused {number} says that {reason}, and that is not so")?)
        }
    }
}

/// Which other answer is due, where that can be said in few words.
fn another_is_due(alloc: Global, machine: &Machine, ask: &Ask) -> Result<String, AllocError> {
    let Some(due) = due_answer(machine, ask) else {
        return text(alloc, "another answer is due");
    };
    let said = answer_said(alloc, &due);
    drop(due);
    let said = said?;
    Ok(format!(in alloc; "another answer is due: {said}")?)
}

fn is_answered_by_choice(ask: &Ask) -> bool {
    matches!(ask, Ask::Prepare { .. } | Ask::Collect)
}

/// Of an ask that is carried out in this machine.
fn when_carried_out(alloc: Global, machine: &Machine, entry: &Entry) -> Result<String, AllocError> {
    let cells = entry.ask.cells() as usize;
    if !fresh_slots(&machine.objects, cells, entry.choice.fresh().as_slice()) {
        let objects = if cells == 1 { "object" } else { "objects" };
        return Ok(format!(in alloc;
            "it makes {cells} {objects}, each in a free cell of its own, and the entry tells others"
        )?);
    }
    if !is_answered_by_choice(&entry.ask) && !is_reply(machine, &entry.ask, &entry.answer) {
        return another_is_due(alloc, machine, &entry.ask);
    }
    text(alloc, "its answer is none that may be given")
}

/// The same behind the collection that comes with it, if one does.
fn behind_collection(
    alloc: Global,
    machine: &Machine,
    entry: &Entry,
) -> Result<String, AllocError> {
    let next = collected_plain(alloc, machine, &entry.choice)?;
    when_carried_out(alloc, &next, entry)
}

/// Of an ask that nothing refuses.
fn when_allowed(alloc: Global, machine: &Machine, entry: &Entry) -> Result<String, AllocError>
    requires { IsWellFormed machine.now }
{
    let may = may_collect_plain(alloc, machine, &entry.ask, &entry.choice)?;
    if may {
        return behind_collection(alloc, machine, entry);
    }
    if entry.choice.collected().is_none() {
        return text(alloc, "a collection has to come with it");
    }
    text(
        alloc,
        "its collection may not come here, or keeps or hands over other objects than it may",
    )
}

/// The rule that an illegal entry breaks in this machine.
pub(crate) fn rule_broken(
    alloc: Global,
    machine: &Machine,
    entry: &Entry,
) -> Result<String, AllocError>
    requires { IsWellFormed machine.now }
{
    if let Some(by) = refusal_plain(machine, &entry.ask) {
        return when_refused(alloc, by, entry);
    }
    if let Answer::Refused(by) = entry.answer {
        return when_answered_refused(alloc, by);
    }
    when_allowed(alloc, machine, entry)
}
