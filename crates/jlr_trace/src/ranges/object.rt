//! Objects.
ghost use Rattle.std.specs.Prelude.{◌<◌, ◌^◌};
ghost use Rattle.jlr_trace_fields.specs.Objects.{WorkFits, GuardFits};
ghost use Rattle.jlr_trace.specs.Ranges.{ContentsRange, ObjectRange};

use crate::ranges::list::{Ranged, all_in_range};
use jlr_machine::object::{Cleanable, Contents, Guard, Object};
use jlr_types::{FieldValue, Work};

impl Ranged for FieldValue {
    ghost use Rattle.jlr_trace.specs.Ranges.{ValueRange};

    ghost Range = { ValueRange };

    fn in_range(&self) {
        if let FieldValue::Int(number) = self {
            let _number = *number;
        }
    }
}

/// What the type of a work says of it.
pub(crate) fn work_in_range(work: Work)
    ensures { WorkFits work }
{
    match work {
        Work::Note(note) => {
            let _note = note;
        }
        Work::Resource(rid) => {
            let _number = rid.number();
        }
    }
}

fn guard_in_range(guard: &Guard)
    ensures { GuardFits guard.now }
{
    let _rid = guard.rid.number();
    let _cleanable = guard.cleanable.number();
}

fn cleanable_in_range(cleanable: &Cleanable)
    ensures action { cleanable.now.action < 2 ^ 64 }
    ensures work { WorkFits cleanable.now.work }
{
    let _action = cleanable.action.number();
    work_in_range(cleanable.work);
}

fn contents_in_range(contents: &Contents)
    ensures { ContentsRange contents.now }
{
    match contents {
        Contents::Typed(fields) => all_in_range(fields.as_slice()),
        Contents::Elements(elements) => {
            let _elements = elements.as_slice();
        }
    }
}

fn object_in_range(object: &Object)
    ensures { ObjectRange object.now }
{
    match object {
        Object::Plain(contents) => contents_in_range(contents),
        Object::Reference(_) => {}
        Object::Queue(members) => all_in_range(members.as_slice()),
        Object::Cleaner => {}
        Object::Cleanable(cleanable) => cleanable_in_range(cleanable),
        Object::Guard(guard) => guard_in_range(guard),
    }
}

impl Ranged for Option<Object> {
    ghost use Rattle.jlr_trace.specs.Ranges.{PlaceRange};

    ghost Range = { PlaceRange };

    fn in_range(&self) {
        if let Some(object) = self {
            object_in_range(object);
        }
    }
}
