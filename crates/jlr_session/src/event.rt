//! The ask of a command that asks once.
ghost use Rattle.std.specs.Prelude.{◌≡◌, true, IfSome};
ghost use Rattle.jlr_event.specs.Asks.{carries_none};
ghost use Rattle.jlr_session.specs.Asks.{ask_by};

use jlr_machine::ask::Ask;
use jlr_types::{Mutator, RefKind};
use jlr_wire::command::Command;

/// What a command that asks once asks in the name of a mutator. There is none for one that may ask twice, and for
/// `bye`.
#[inline(always)]
pub(crate) fn ask_for(mutator: Mutator, command: &Command<'_>) -> Option<Ask>
    ensures ask { result ≡ ask_by mutator command.now }
    ensures plain { IfSome result (λ ask. carries_none ask ≡ true) }
{
    Some(match *command {
        Command::New { ref layout } => Ask::New {
            mutator,
            layout: layout.copy(),
        },
        Command::Array { length } => Ask::Array { mutator, length },
        Command::Dup { object } => Ask::Dup { mutator, object },
        Command::Drop { object } => Ask::Drop { mutator, object },
        Command::Same { left, right } => Ask::Same {
            mutator,
            left,
            right,
        },
        Command::Put {
            object,
            field,
            value,
        } => Ask::Put {
            mutator,
            object,
            field,
            value,
        },
        Command::Get { object, field } => Ask::Get {
            mutator,
            object,
            field,
        },
        Command::SetInt {
            object,
            field,
            value,
        } => Ask::SetInt {
            mutator,
            object,
            field,
            value,
        },
        Command::Int { object, field } => Ask::Int {
            mutator,
            object,
            field,
        },
        Command::Soft { referent, queue } => Ask::MakeRef {
            mutator,
            kind: RefKind::Soft,
            referent,
            queue,
        },
        Command::Weak { referent, queue } => Ask::MakeRef {
            mutator,
            kind: RefKind::Weak,
            referent,
            queue,
        },
        Command::Phantom { referent, queue } => Ask::MakeRef {
            mutator,
            kind: RefKind::Phantom,
            referent,
            queue,
        },
        Command::Deref { reference } => Ask::Deref { mutator, reference },
        Command::Refers { reference, object } => Ask::Refers {
            mutator,
            reference,
            object,
        },
        Command::Clear { reference } => Ask::Clear { mutator, reference },
        Command::Enqueue { reference } => Ask::Enqueue { mutator, reference },
        Command::Enqueued { reference } => Ask::Enqueued { mutator, reference },
        Command::Queue => Ask::MakeQueue { mutator },
        Command::Poll { queue } => Ask::Poll { mutator, queue },
        Command::Remove { queue } => Ask::Remove { mutator, queue },
        Command::Cleaner => Ask::MakeCleaner { mutator },
        Command::Register {
            cleaner,
            object,
            note,
        } => Ask::Register {
            mutator,
            cleaner,
            object,
            note,
        },
        Command::Bind { ref name, object } => Ask::Bind {
            mutator,
            name: name.copy(),
            object,
        },
        Command::Find { ref name } => Ask::Find {
            mutator,
            name: name.copy(),
        },
        Command::Unbind { ref name } => Ask::Unbind {
            mutator,
            name: name.copy(),
        },
        Command::Names => Ask::Names { mutator },
        Command::Full { mode } => Ask::Full { mutator, mode },
        Command::Stat => Ask::Stat { mutator },
        Command::Notes => Ask::Notes { mutator },
        Command::Faults => Ask::Faults { mutator },
        Command::Open { .. }
        | Command::Connect { .. }
        | Command::Read { .. }
        | Command::Write { .. }
        | Command::Clean { .. }
        | Command::Close { .. }
        | Command::Bye => return None,
    })
}
