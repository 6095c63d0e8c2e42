//! Whether two machines are the same, part by part.
use jlr_machine::machine::{Binding, Machine, Session};
use jlr_machine::object::{Contents, Object};

pub(crate) fn same_machine(left: &Machine, right: &Machine) -> bool {
    same_tables(left, right) && same_lists(left, right) && same_numbers(left, right)
}

fn same_tables(left: &Machine, right: &Machine) -> bool {
    same_objects(left.objects.as_slice(), right.objects.as_slice())
        && same_sessions(left.mutators.as_slice(), right.mutators.as_slice())
        && same_bindings(left.names.as_slice(), right.names.as_slice())
}

fn same_lists(left: &Machine, right: &Machine) -> bool {
    left.pending.as_slice() == right.pending.as_slice()
        && left.line.as_slice() == right.line.as_slice()
        && left.jobs.as_slice() == right.jobs.as_slice()
        && left.resources.as_slice() == right.resources.as_slice()
        && left.faults.as_slice() == right.faults.as_slice()
        && left.notes.as_slice() == right.notes.as_slice()
        && left.seen.as_slice() == right.seen.as_slice()
}

fn same_numbers(left: &Machine, right: &Machine) -> bool {
    left.resource_limit == right.resource_limit
        && left.next_action == right.next_action
        && left.taken == right.taken
        && left.ok == right.ok
        && left.failed == right.failed
        && left.cycle_open == right.cycle_open
}

fn same_objects(left: &[Option<Object>], right: &[Option<Object>]) -> bool {
    for (one, other) in left.iter().zip(right) {
        if !same_places(one, other) {
            return false;
        }
    }
    left.len() == right.len()
}

fn same_places(left: &Option<Object>, right: &Option<Object>) -> bool {
    match left {
        Some(one) => matches!(right, Some(other) if same_object(one, other)),
        None => right.is_none(),
    }
}

fn same_contents(left: &Contents, right: &Contents) -> bool {
    match left {
        Contents::Typed(one) => {
            matches!(right, Contents::Typed(other) if one.as_slice() == other.as_slice())
        }
        Contents::Elements(one) => {
            matches!(right, Contents::Elements(other) if one.as_slice() == other.as_slice())
        }
    }
}

fn same_object(left: &Object, right: &Object) -> bool {
    match left {
        Object::Plain(one) => matches!(right, Object::Plain(other) if same_contents(one, other)),
        Object::Reference(one) => matches!(right, Object::Reference(other) if one == other),
        Object::Queue(one) => {
            matches!(right, Object::Queue(other) if one.as_slice() == other.as_slice())
        }
        Object::Cleaner => matches!(right, Object::Cleaner),
        Object::Cleanable(one) => matches!(right, Object::Cleanable(other) if one == other),
        Object::Guard(one) => matches!(right, Object::Guard(other) if one == other),
    }
}

fn same_sessions(left: &[Option<Session>], right: &[Option<Session>]) -> bool {
    for (one, other) in left.iter().zip(right) {
        if !same_seats(one, other) {
            return false;
        }
    }
    left.len() == right.len()
}

fn same_seats(left: &Option<Session>, right: &Option<Session>) -> bool {
    match left {
        Some(one) => matches!(right, Some(other) if same_session(one, other)),
        None => right.is_none(),
    }
}

fn same_session(left: &Session, right: &Session) -> bool {
    left.handles.as_slice() == right.handles.as_slice()
        && left.fence == right.fence
        && left.call == right.call
}

fn same_bindings(left: &[Binding], right: &[Binding]) -> bool {
    for (one, other) in left.iter().zip(right) {
        if one.slot != other.slot || one.name.as_slice() != other.name.as_slice() {
            return false;
        }
    }
    left.len() == right.len()
}
