//! Commands out of lines.
ghost use Rattle.jlr_wire.specs.declared.command.Command.{Command};
ghost use Rattle.jlr_types.specs.declared.Refusal.TheVariants.{TooLong, Malformed};
ghost use Rattle.std.specs.Prelude.{if◌then◌else◌, nat_lt, Ok, ◌≡◌, ◌<◌, ◌↔◌, IfErr, length};
ghost use Rattle.std.specs.List.{slice_split};
ghost use Rattle.std.specs.Str.{bytes_eq};
ghost use Rattle.jlr_wire.specs.Reading.{with_number, with_two_numbers, reading_1, reading_2, reading_3, reading_4};
ghost use Rattle.jlr_wire.specs.Reading.{reading};
ghost use Rattle.jlr_wire.specs.Commands.{IsCommand};
ghost use Rattle.jlr_wire.specs.Fields.{is_space};

use crate::cut::cut_field;
use crate::integer::integer;
use crate::layout::layout;
use crate::number::{count, field, length, note, number};
use crate::path::Path;
use crate::pieces::LINE_LIMIT;
pub use crate::word::Digits;
use crate::word::{mode, name};
use jlr_device::Mode;
use jlr_machine::ask::FullMode;
use jlr_machine::text::Name;
use jlr_types::{FieldNo, Handle, Layout, Length, Refusal};

/// What a line asks for. A handle may be any number from 0 to 255, also one that is never in use.
#[derive(Drop)]
pub enum Command<'a> {
    /// `new L`: makes an object with these fields.
    New {
        layout: Layout,
    },
    /// `put h k v`: writes a reference field.
    Put {
        object: Handle,
        field: FieldNo,
        value: Handle,
    },
    /// `get h k`: reads a reference field.
    Get {
        object: Handle,
        field: FieldNo,
    },
    /// `setint h k integer`: writes an integer field.
    SetInt {
        object: Handle,
        field: FieldNo,
        value: i64,
    },
    /// `int h k`: reads an integer field.
    Int {
        object: Handle,
        field: FieldNo,
    },
    /// `dup h`: one handle more for the object.
    Dup {
        object: Handle,
    },
    /// `drop h`: gives the handle up.
    Drop {
        object: Handle,
    },
    /// `same a b`: whether both name one object.
    Same {
        left: Handle,
        right: Handle,
    },
    /// `soft h q`: makes a soft reference, with a queue or without one.
    Soft {
        referent: Handle,
        queue: Handle,
    },
    /// `weak h q`: makes a weak reference, with a queue or without one.
    Weak {
        referent: Handle,
        queue: Handle,
    },
    /// `phantom h q`: makes a phantom reference, with a queue or without one.
    Phantom {
        referent: Handle,
        queue: Handle,
    },
    /// `deref r`: what a reference refers to.
    Deref {
        reference: Handle,
    },
    /// `refers r h`: whether a reference refers to the object, or to none where h is 0.
    Refers {
        reference: Handle,
        object: Handle,
    },
    /// `clear r`: a reference loses its referent.
    Clear {
        reference: Handle,
    },
    /// `enqueue r`: a reference loses its referent and goes to the end of its queue, if it may.
    Enqueue {
        reference: Handle,
    },
    /// `enqueued r`: whether a reference is in its queue.
    Enqueued {
        reference: Handle,
    },
    /// `queue`: makes a queue.
    Queue,
    /// `poll q`: takes the front of a queue.
    Poll {
        queue: Handle,
    },
    /// `remove q`: takes the front of a queue, and waits for one where there is none.
    Remove {
        queue: Handle,
    },
    /// `cleaner`: makes a cleaner.
    Cleaner,
    /// `register c h note`: has a cleaner note the number once the object is unreachable.
    Register {
        cleaner: Handle,
        object: Handle,
        note: u32,
    },
    /// `clean c`: does what a cleanable was made for, if that was not done before.
    Clean {
        cleanable: Handle,
    },
    /// `open m path`: opens a file, for reading or for writing.
    Open {
        mode: Mode,
        path: Path<'a>,
    },
    /// `connect path`: joins a socket.
    Connect {
        path: Path<'a>,
    },
    /// `read h count`: reads at most so many bytes, 1 to 200.
    Read {
        guard: Handle,
        count: u8,
    },
    /// `write h bytes`: writes 1 to 200 bytes.
    Write {
        guard: Handle,
        bytes: Digits<'a>,
    },
    /// `close h`: closes a file or a socket, if that was not done before.
    Close {
        guard: Handle,
    },
    /// `bind name h`: gives the object a name, or the name another object.
    Bind {
        name: Name,
        object: Handle,
    },
    /// `find name`: a handle for the object of that name.
    Find {
        name: Name,
    },
    /// `unbind name`: takes the name away.
    Unbind {
        name: Name,
    },
    /// `names`: the names that are bound.
    Names,
    /// `gc`: a full collection by the policy for soft references. `gc soft`: one that clears them all.
    Full {
        mode: FullMode,
    },
    /// `stat`: the machine's counts.
    Stat,
    /// `notes`: the numbers that were noted.
    Notes,
    /// `faults`: the cleaning actions that failed.
    Faults,
    /// `bye`: ends the session.
    Bye,
    /// `array n`: makes an array of references.
    Array {
        length: Length,
    },
}

/// Whether a field is this word. Most are told apart by their lengths, the others one byte after the other: words are
/// short.
#[inline(always)]
fn is(field: &[u8], word: &[u8]) -> bool
    ensures { result ≡ bytes_eq field.now word.now }
{
    if field.len() != word.len() {
        return false;
    }
    for i in 0..field.len() {
        if field[i] != word[i] {
            return false;
        }
    }
    true
}

/// A command that is its name alone.
#[tactic(auto, unfolding(crate::specs::Reading::reading_1))]
fn one_field<'a>(word: &[u8]) -> Option<Command<'a>>
    ensures { result ≡ reading_1 word.now }
{
    if is(word, b"queue") {
        return Some(Command::Queue);
    }
    if is(word, b"cleaner") {
        return Some(Command::Cleaner);
    }
    if is(word, b"gc") {
        return Some(Command::Full {
            mode: FullMode::Policy,
        });
    }
    if is(word, b"names") {
        return Some(Command::Names);
    }
    if is(word, b"stat") {
        return Some(Command::Stat);
    }
    if is(word, b"notes") {
        return Some(Command::Notes);
    }
    if is(word, b"faults") {
        return Some(Command::Faults);
    }
    if is(word, b"bye") {
        return Some(Command::Bye);
    }
    None
}

/// A command of a name and one field.
#[tactic(auto, unfolding(crate::specs::Reading::reading_2))]
fn two_fields<'a>(word: &[u8], a: &'a [u8]) -> Option<Command<'a>>
    ensures { result ≡ reading_2 word.now a.now }
{
    if is(word, b"new") {
        return Some(Command::New { layout: layout(a)? });
    }
    if is(word, b"connect") {
        return Some(Command::Connect {
            path: Path::parse(a)?,
        });
    }
    if is(word, b"find") {
        return Some(Command::Find { name: name(a)? });
    }
    if is(word, b"unbind") {
        return Some(Command::Unbind { name: name(a)? });
    }
    if is(word, b"array") {
        return Some(Command::Array { length: length(a)? });
    }
    if is(word, b"gc") && is(a, b"soft") {
        return Some(Command::Full {
            mode: FullMode::ClearAll,
        });
    }
    one_number(word, number(a)?)
}

/// A command of a name and a number.
#[tactic(auto, unfolding(crate::specs::Reading::with_number))]
fn one_number<'a>(word: &[u8], a: u8) -> Option<Command<'a>>
    ensures { result ≡ with_number word.now a }
{
    let h = Handle::new(a);
    if is(word, b"dup") {
        return Some(Command::Dup { object: h });
    }
    if is(word, b"drop") {
        return Some(Command::Drop { object: h });
    }
    if is(word, b"deref") {
        return Some(Command::Deref { reference: h });
    }
    if is(word, b"clear") {
        return Some(Command::Clear { reference: h });
    }
    if is(word, b"enqueue") {
        return Some(Command::Enqueue { reference: h });
    }
    if is(word, b"enqueued") {
        return Some(Command::Enqueued { reference: h });
    }
    if is(word, b"poll") {
        return Some(Command::Poll { queue: h });
    }
    if is(word, b"remove") {
        return Some(Command::Remove { queue: h });
    }
    if is(word, b"clean") {
        return Some(Command::Clean { cleanable: h });
    }
    if is(word, b"close") {
        return Some(Command::Close { guard: h });
    }
    None
}

/// A command of a name and two fields.
#[tactic(auto, unfolding(crate::specs::Reading::reading_3))]
fn three_fields<'a>(word: &[u8], a: &[u8], b: &'a [u8]) -> Option<Command<'a>>
    ensures { result ≡ reading_3 word.now a.now b.now }
{
    if is(word, b"open") {
        return Some(Command::Open {
            mode: mode(a)?,
            path: Path::parse(b)?,
        });
    }
    if is(word, b"bind") {
        return Some(Command::Bind {
            name: name(a)?,
            object: Handle::new(number(b)?),
        });
    }
    if is(word, b"read") {
        return Some(Command::Read {
            guard: Handle::new(number(a)?),
            count: count(b)?,
        });
    }
    if is(word, b"write") {
        return Some(Command::Write {
            guard: Handle::new(number(a)?),
            bytes: Digits::parse(b)?,
        });
    }
    if is(word, b"get") {
        return Some(Command::Get {
            object: Handle::new(number(a)?),
            field: field(b)?,
        });
    }
    if is(word, b"int") {
        return Some(Command::Int {
            object: Handle::new(number(a)?),
            field: field(b)?,
        });
    }
    two_numbers(word, number(a)?, number(b)?)
}

/// A command of a name and two numbers.
#[tactic(auto, unfolding(crate::specs::Reading::with_two_numbers))]
fn two_numbers<'a>(word: &[u8], a: u8, b: u8) -> Option<Command<'a>>
    ensures { result ≡ with_two_numbers word.now a b }
{
    let object = Handle::new(a);
    let (left, right) = (object, Handle::new(b));
    if is(word, b"same") {
        return Some(Command::Same { left, right });
    }
    let (referent, queue) = (left, right);
    if is(word, b"soft") {
        return Some(Command::Soft { referent, queue });
    }
    if is(word, b"weak") {
        return Some(Command::Weak { referent, queue });
    }
    if is(word, b"phantom") {
        return Some(Command::Phantom { referent, queue });
    }
    let (reference, object) = (left, right);
    if is(word, b"refers") {
        return Some(Command::Refers { reference, object });
    }
    None
}

/// A command of a name and three fields.
#[tactic(auto, unfolding(crate::specs::Reading::reading_4))]
fn four_fields<'a>(word: &[u8], a: &[u8], b: &[u8], c: &[u8]) -> Option<Command<'a>>
    ensures { result ≡ reading_4 word.now a.now b.now c.now }
{
    if is(word, b"put") {
        return Some(Command::Put {
            object: Handle::new(number(a)?),
            field: field(b)?,
            value: Handle::new(number(c)?),
        });
    }
    if is(word, b"setint") {
        return Some(Command::SetInt {
            object: Handle::new(number(a)?),
            field: field(b)?,
            value: integer(c)?,
        });
    }
    if is(word, b"register") {
        return Some(Command::Register {
            cleaner: Handle::new(number(a)?),
            object: Handle::new(number(b)?),
            note: note(c)?,
        });
    }
    None
}

/// The command that the fields of a line are. A space parts two fields.
fn command_in<'a>(line: &'a [u8]) -> Option<Command<'a>>
    ensures { result ≡ reading (slice_split is_space line.now) }
{
    let Some((word, rest)) = cut_field(line) else {
        return one_field(line);
    };
    let Some((a, rest)) = cut_field(rest) else {
        return two_fields(word, rest);
    };
    let Some((b, rest)) = cut_field(rest) else {
        return three_fields(word, a, rest);
    };
    match cut_field(rest) {
        Some(_) => None,
        None => four_fields(word, a, b, rest),
    }
}

/// The command that a line, without its end, is.
///
/// A line of more than 512 bytes is refused as `TooLong`, every other line that is no command as
/// `Malformed`. Of a longer line the first 513 bytes are enough.
pub fn read_command<'a>(line: &'a [u8]) -> Result<Command<'a>, Refusal>
    ensures exact { (c : Command) → (result ≡ Ok c) ↔ IsCommand line.now c }
    ensures refused { IfErr result (λ e. e ≡ (if nat_lt 512 (length line.now) then TooLong else Malformed)) }
{
    if line.len() > LINE_LIMIT {
        return Err(Refusal::TooLong);
    }
    match command_in(line) {
        Some(command) => Ok(command),
        None => Err(Refusal::Malformed),
    }
}
