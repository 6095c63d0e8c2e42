//! The forms of commands: each with its word, its operands, what it may be refused, and what the manual says of it.
ghost use Rattle.std.specs.Prelude.{◌≡◌};
ghost use Rattle.std.specs.List.{Contains};
ghost use Rattle.jlr_client.specs.declared.manual.form.Form.{Form as FormOf};
ghost use Rattle.jlr_client.specs.Forms.{all_forms, word_of_form, operands_of, first_ask, refusals_of};

use crate::manual::operand::Operand;
use jlr_machine::ask::AskKind;
use jlr_types::Refusal;

/// The form of a command: its word, or for `gc soft` its two words.
#[derive(Clone, Copy, Debug)]
pub enum Form {
    /// `new L`.
    New,
    /// `array n`.
    Array,
    /// `put h k v`.
    Put,
    /// `get h k`.
    Get,
    /// `setint h k integer`.
    SetInt,
    /// `int h k`.
    Int,
    /// `dup h`.
    Dup,
    /// `drop h`.
    Drop,
    /// `same a b`.
    Same,
    /// `soft h q`.
    Soft,
    /// `weak h q`.
    Weak,
    /// `phantom h q`.
    Phantom,
    /// `deref r`.
    Deref,
    /// `refers r h`.
    Refers,
    /// `clear r`.
    Clear,
    /// `enqueue r`.
    Enqueue,
    /// `enqueued r`.
    Enqueued,
    /// `queue`.
    Queue,
    /// `poll q`.
    Poll,
    /// `remove q`.
    Remove,
    /// `cleaner`.
    Cleaner,
    /// `register c h note`.
    Register,
    /// `clean c`.
    Clean,
    /// `open m path`.
    Open,
    /// `connect path`.
    Connect,
    /// `read h count`.
    Read,
    /// `write h bytes`.
    Write,
    /// `close h`.
    Close,
    /// `bind name h`.
    Bind,
    /// `find name`.
    Find,
    /// `unbind name`.
    Unbind,
    /// `names`.
    Names,
    /// `gc`.
    Gc,
    /// `gc soft`.
    GcSoft,
    /// `stat`.
    Stat,
    /// `notes`.
    Notes,
    /// `faults`.
    Faults,
    /// `bye`.
    Bye,
}

/// Each form, in the order of the manual.
pub fn forms() -> &'static [Form]
    ensures order { result.now ≡ all_forms }
    ensures each { (form : FormOf) → Contains result.now form }
{
    &[
        Form::New,
        Form::Array,
        Form::Put,
        Form::Get,
        Form::SetInt,
        Form::Int,
        Form::Dup,
        Form::Drop,
        Form::Same,
        Form::Soft,
        Form::Weak,
        Form::Phantom,
        Form::Deref,
        Form::Refers,
        Form::Clear,
        Form::Enqueue,
        Form::Enqueued,
        Form::Queue,
        Form::Poll,
        Form::Remove,
        Form::Cleaner,
        Form::Register,
        Form::Clean,
        Form::Open,
        Form::Connect,
        Form::Read,
        Form::Write,
        Form::Close,
        Form::Bind,
        Form::Find,
        Form::Unbind,
        Form::Names,
        Form::Gc,
        Form::GcSoft,
        Form::Stat,
        Form::Notes,
        Form::Faults,
        Form::Bye,
    ]
}

/// What the manual says of a form.
#[derive(Clone, Copy, Debug)]
pub struct Page {
    /// What a command of this form does.
    pub meaning: &'static str,
    /// What it is answered, unless it is refused.
    pub reply: &'static str,
    /// A line of this form.
    pub example: &'static str,
    /// What the example may be answered.
    pub answer: &'static str,
}

fn told(
    meaning: &'static str,
    reply: &'static str,
    example: &'static str,
    answer: &'static str,
) -> Page {
    Page {
        meaning,
        reply,
        example,
        answer,
    }
}

impl Form {
    /// The word with which a command begins.
    pub fn name(self) -> &'static str
        ensures { result.now ≡ word_of_form self }
    {
        match self {
            Form::New => "new",
            Form::Array => "array",
            Form::Put => "put",
            Form::Get => "get",
            Form::SetInt => "setint",
            Form::Int => "int",
            Form::Dup => "dup",
            Form::Drop => "drop",
            Form::Same => "same",
            Form::Soft => "soft",
            Form::Weak => "weak",
            Form::Phantom => "phantom",
            Form::Deref => "deref",
            Form::Refers => "refers",
            Form::Clear => "clear",
            Form::Enqueue => "enqueue",
            Form::Enqueued => "enqueued",
            Form::Queue => "queue",
            Form::Poll => "poll",
            Form::Remove => "remove",
            Form::Cleaner => "cleaner",
            Form::Register => "register",
            Form::Clean => "clean",
            Form::Open => "open",
            Form::Connect => "connect",
            Form::Read => "read",
            Form::Write => "write",
            Form::Close => "close",
            Form::Bind => "bind",
            Form::Find => "find",
            Form::Unbind => "unbind",
            Form::Names => "names",
            Form::Gc => "gc",
            Form::GcSoft => "gc soft",
            Form::Stat => "stat",
            Form::Notes => "notes",
            Form::Faults => "faults",
            Form::Bye => "bye",
        }
    }

    /// What stands behind the word, in order.
    pub fn operands(self) -> &'static [Operand]
        ensures { result.now ≡ operands_of self }
    {
        match self {
            Form::New => &[Operand::Layout],
            Form::Array => &[Operand::Length],
            Form::Put => &[Operand::Object, Operand::Field, Operand::Value],
            Form::Get | Form::Int => &[Operand::Object, Operand::Field],
            Form::SetInt => &[Operand::Object, Operand::Field, Operand::Integer],
            Form::Dup | Form::Drop | Form::Close => &[Operand::Object],
            Form::Same => &[Operand::Left, Operand::Right],
            Form::Soft | Form::Weak | Form::Phantom => &[Operand::Object, Operand::Queue],
            Form::Deref | Form::Clear | Form::Enqueue | Form::Enqueued => &[Operand::Reference],
            Form::Refers => &[Operand::Reference, Operand::Object],
            Form::Queue
            | Form::Cleaner
            | Form::Names
            | Form::Gc
            | Form::GcSoft
            | Form::Stat
            | Form::Notes
            | Form::Faults
            | Form::Bye => &[],
            Form::Poll | Form::Remove => &[Operand::Queue],
            Form::Register => &[Operand::Cleaner, Operand::Object, Operand::Note],
            Form::Clean => &[Operand::Cleanable],
            Form::Open => &[Operand::Mode, Operand::Path],
            Form::Connect => &[Operand::Path],
            Form::Read => &[Operand::Object, Operand::Count],
            Form::Write => &[Operand::Object, Operand::Bytes],
            Form::Bind => &[Operand::Name, Operand::Object],
            Form::Find | Form::Unbind => &[Operand::Name],
        }
    }

    /// What a command of this form may be refused, in the order of checking. Memory may also run out.
    pub fn refusals(self) -> &'static [Refusal]
        ensures { result.now ≡ refusals_of self }
    {
        match self.first_ask() {
            Some(kind) => kind.refusals(),
            None => &[],
        }
    }

    /// What a command of this form asks first; `bye` asks nothing.
    fn first_ask(self) -> Option<AskKind>
        ensures { result ≡ first_ask self }
    {
        let kind = match self {
            Form::New => AskKind::New,
            Form::Array => AskKind::Array,
            Form::Put => AskKind::Put,
            Form::Get => AskKind::Get,
            Form::SetInt => AskKind::SetInt,
            Form::Int => AskKind::Int,
            Form::Dup => AskKind::Dup,
            Form::Drop => AskKind::Drop,
            Form::Same => AskKind::Same,
            Form::Soft | Form::Weak | Form::Phantom => AskKind::MakeRef,
            Form::Deref => AskKind::Deref,
            Form::Refers => AskKind::Refers,
            Form::Clear => AskKind::Clear,
            Form::Enqueue => AskKind::Enqueue,
            Form::Enqueued => AskKind::Enqueued,
            Form::Queue => AskKind::MakeQueue,
            Form::Poll => AskKind::Poll,
            Form::Remove => AskKind::Remove,
            Form::Cleaner => AskKind::MakeCleaner,
            Form::Register => AskKind::Register,
            Form::Clean => AskKind::Clean,
            Form::Open | Form::Connect => AskKind::Prepare,
            Form::Read | Form::Write => AskKind::CheckOut,
            Form::Close => AskKind::Close,
            Form::Bind => AskKind::Bind,
            Form::Find => AskKind::Find,
            Form::Unbind => AskKind::Unbind,
            Form::Names => AskKind::Names,
            Form::Gc | Form::GcSoft => AskKind::Full,
            Form::Stat => AskKind::Stat,
            Form::Notes => AskKind::Notes,
            Form::Faults => AskKind::Faults,
            Form::Bye => return None,
        };
        Some(kind)
    }

    /// What the manual says of this form.
    pub fn page(self) -> Page {
        match self {
            Form::New => told(
                "makes an object; fields are null or 0",
                "= h",
                "new ri",
                "= 1",
            ),
            Form::Array => told("makes an array of n nulls", "= h", "array 3", "= 1"),
            Form::Put => told(
                "writes reference field, or element, k of h",
                "ok",
                "put 1 0 2",
                "ok",
            ),
            Form::Get => told(
                "reads reference field, or element, k of h",
                "= h, 0 for null",
                "get 1 0",
                "= 3",
            ),
            Form::SetInt => told("writes integer field k of h", "ok", "setint 1 1 -7", "ok"),
            Form::Int => told("reads integer field k of h", "int n", "int 1 1", "int -7"),
            Form::Dup => told("one handle more for h's object", "= h", "dup 1", "= 4"),
            Form::Drop => told("gives the handle up", "ok", "drop 4", "ok"),
            Form::Same => told(
                "whether both name one object, or both are 0",
                "yes, no",
                "same 2 3",
                "yes",
            ),
            Form::Soft => told(
                "makes a soft reference to h's object, with the queue q, or none where q is 0",
                "= h",
                "soft 1 0",
                "= 5",
            ),
            Form::Weak => told(
                "makes a weak reference to h's object, with the queue q, or none where q is 0",
                "= h",
                "weak 1 0",
                "= 5",
            ),
            Form::Phantom => told(
                "makes a phantom reference to h's object, with the queue q, or none where q is 0",
                "= h",
                "phantom 1 7",
                "= 5",
            ),
            Form::Deref => told(
                "what the reference refers to; 0 always for a phantom reference",
                "= h, 0 once cleared",
                "deref 5",
                "= 6",
            ),
            Form::Refers => told(
                "whether r refers to h's object; where h is 0, whether it was cleared",
                "yes, no",
                "refers 5 1",
                "yes",
            ),
            Form::Clear => told(
                "clears the reference, and does not enqueue it",
                "ok",
                "clear 5",
                "ok",
            ),
            Form::Enqueue => told(
                "clears the reference and puts it at the end of its queue; no: it has none, or was enqueued before",
                "yes, no",
                "enqueue 5",
                "no",
            ),
            Form::Enqueued => told(
                "whether the reference is in its queue",
                "yes, no",
                "enqueued 5",
                "no",
            ),
            Form::Queue => told("makes a queue", "= h", "queue", "= 7"),
            Form::Poll => told(
                "takes the front reference off",
                "= h, 0 where empty",
                "poll 7",
                "= 0",
            ),
            Form::Remove => told(
                "takes the front reference off; on an empty queue a server waits",
                "= h",
                "remove 7",
                "! 18",
            ),
            Form::Cleaner => told("makes a cleaner", "= h", "cleaner", "= 8"),
            Form::Register => told(
                "the cleaner c notes the number once h's object is phantom reachable",
                "= h, a cleanable",
                "register 8 1 42",
                "= 9",
            ),
            Form::Clean => told(
                "does the cleanable's action now, unless done",
                "ok",
                "clean 9",
                "ok",
            ),
            Form::Open => told(
                "opens a file; the reply is its guard",
                "= h, fault",
                "open r /tmp/a",
                "= 10",
            ),
            Form::Connect => told(
                "joins a Unix socket; the reply is its guard",
                "= h, fault",
                "connect /run/s",
                "fault denied",
            ),
            Form::Read => told(
                "reads at most count bytes",
                "data, end, fault",
                "read 10 2",
                "data 0102",
            ),
            Form::Write => told(
                "writes the bytes; n says how many were taken",
                "wrote n, fault",
                "write 10 0aFF",
                "wrote 2",
            ),
            Form::Close => told(
                "closes the file or connection, unless done",
                "ok, fault",
                "close 10",
                "ok",
            ),
            Form::Bind => told(
                "names h's object; the name leaves any other",
                "ok",
                "bind root 1",
                "ok",
            ),
            Form::Find => told("a handle for the named object", "= h", "find root", "= 11"),
            Form::Unbind => told("takes the name away", "ok", "unbind root", "ok"),
            Form::Names => told(
                "the names, in order of binding",
                "list",
                "names",
                "list root",
            ),
            Form::Gc => told("a full collection, by the soft policy", "ok", "gc", "ok"),
            Form::GcSoft => told(
                "a full collection that clears all softly reachable objects' soft references",
                "ok",
                "gc soft",
                "ok",
            ),
            Form::Stat => told(
                "counts: objects, resources, actions taken up, ended well, failed",
                "stat",
                "stat",
                "stat 9 0 1 1 0",
            ),
            Form::Notes => told(
                "the last 256 numbers noted, oldest first",
                "list",
                "notes",
                "list 42",
            ),
            Form::Faults => told(
                "the last 256 cleaning actions that failed",
                "list",
                "faults",
                "list 3:denied",
            ),
            Form::Bye => told("ends the session", "ok", "bye", "ok"),
        }
    }
}
