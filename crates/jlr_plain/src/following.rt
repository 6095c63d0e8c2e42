//! Which entries add nothing to what was seen in an open cycle.
ghost use Rattle.std.specs.Prelude.{◌≡◌};
ghost use Rattle.jlr_machine.specs.Refusals.{is_refusal};
ghost use Rattle.jlr_plain.specs.Following.{is_seen_given, adds_no_root, keeps_seen};

use jlr_machine::ask::{Answer, Ask};
use jlr_machine::entry::Entry;
use jlr_machine::machine::Machine;
use jlr_plain_asks::given::given_by;
use jlr_plain_collections::collection::holds;
use jlr_types::Slot;

pub(crate) fn is_refusal(answer: &Answer) -> bool
    ensures { result ≡ is_refusal answer.now }
{
    match answer {
        Answer::Refused(_) => true,
        _ => false,
    }
}

/// Whether what is given was seen, if something is.
fn given_was_seen(seen: &[Slot], given: Option<Slot>) -> bool
    ensures { result ≡ is_seen_given seen.now given }
{
    match given {
        Some(slot) => holds(seen, slot),
        None => true,
    }
}

/// Whether each root behind the ask was a root before it, or was seen. Of asks that change more than a handle or a
/// field nothing is said.
fn adds_none(machine: &Machine, ask: &Ask) -> bool
    ensures { result ≡ adds_no_root machine.now ask.now }
{
    match ask {
        Ask::Put { .. } => true,
        Ask::Get { .. } => given_was_seen(machine.seen.as_slice(), given_by(machine, ask)),
        Ask::SetInt { .. } => true,
        Ask::Int { .. } => true,
        Ask::Dup { .. } => given_was_seen(machine.seen.as_slice(), given_by(machine, ask)),
        Ask::Drop { .. } => true,
        Ask::Same { .. } => true,
        Ask::Deref { .. } => given_was_seen(machine.seen.as_slice(), given_by(machine, ask)),
        Ask::Refers { .. } => true,
        Ask::Enqueued { .. } => true,
        Ask::Find { .. } => given_was_seen(machine.seen.as_slice(), given_by(machine, ask)),
        Ask::Names { .. } => true,
        Ask::Full { .. } => true,
        Ask::Stat { .. } => true,
        Ask::Notes { .. } => true,
        Ask::Faults { .. } => true,
        Ask::Collect => true,
        _ => false,
    }
}

/// Whether a cycle is open and goes on, and the entry adds nothing to what was seen in it.
pub(crate) fn keeps_seen_plain(machine: &Machine, entry: &Entry) -> bool
    ensures { result ≡ keeps_seen machine.now entry.now }
{
    machine.cycle_open
        && entry.choice.collected().is_none()
        && (is_refusal(&entry.answer) || adds_none(machine, &entry.ask))
}
