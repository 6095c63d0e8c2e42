//! Calls by the words of their asks.
use super::results::{
    back, cleanable, cleaner, done, guard, handle, handle_or_null, int, job, lent, plain, queue,
    reference, stat, truth,
};
use jlr_event::event::{Event, Reply};
use jlr_heap::Heap;
use jlr_heap::handles::{Cleanable, Cleaner, Guard, Queue, Reference};
use jlr_heap::keeper::Keeper;
use jlr_machine::ask::{Answer, Ask, CallOutcome, FullMode, Outcome};
use jlr_types::{ActionNo, Fault, Handle, RefKind, Refusal};

// The queue of a handle; none for null.
fn queue_of(handle: Handle) -> Option<Queue> {
    if handle.number() == 0 {
        None
    } else {
        Some(Queue::of(handle))
    }
}

// ---- Objects

fn object<K: Keeper<Held = u32>>(heap: &mut Heap<K>, ask: &Ask) -> Option<Answer> {
    Some(match ask {
        Ask::New { layout, .. } => handle(heap.object(layout.copy())),
        Ask::Array { length, .. } => handle(heap.array(*length)),
        Ask::Dup { object, .. } => handle(heap.dup(*object)),
        Ask::Drop { object, .. } => done(heap.drop(*object)),
        Ask::Same { left, right, .. } => truth(heap.same(*left, *right)),
        _ => return None,
    })
}

fn field<K: Keeper<Held = u32>>(heap: &mut Heap<K>, ask: &Ask) -> Option<Answer> {
    Some(match ask {
        Ask::Put {
            object,
            field,
            value,
            ..
        } => done(heap.put(*object, *field, *value)),
        Ask::Get { object, field, .. } => handle_or_null(heap.get(*object, *field)),
        Ask::SetInt {
            object,
            field,
            value,
            ..
        } => done(heap.set_int(*object, *field, *value)),
        Ask::Int { object, field, .. } => int(heap.int(*object, *field)),
        _ => return None,
    })
}

// ---- References and queues

fn make<K: Keeper<Held = u32>>(
    heap: &mut Heap<K>,
    kind: RefKind,
    referent: Handle,
    on: Handle,
) -> Answer {
    let on = queue_of(on);
    reference(match kind {
        RefKind::Soft => heap.soft(referent, on),
        RefKind::Weak => heap.weak(referent, on),
        RefKind::Phantom => heap.phantom(referent, on),
    })
}

fn referring<K: Keeper<Held = u32>>(heap: &mut Heap<K>, ask: &Ask) -> Option<Answer> {
    Some(match ask {
        Ask::MakeRef {
            kind,
            referent,
            queue,
            ..
        } => make(heap, *kind, *referent, *queue),
        Ask::Deref { reference, .. } => handle_or_null(heap.deref(Reference::of(*reference))),
        Ask::Refers {
            reference,
            object,
            ..
        } => truth(heap.refers(Reference::of(*reference), *object)),
        Ask::Clear { reference, .. } => done(heap.clear(Reference::of(*reference))),
        Ask::Enqueue { reference, .. } => truth(heap.enqueue(Reference::of(*reference))),
        Ask::Enqueued { reference, .. } => truth(heap.enqueued(Reference::of(*reference))),
        _ => return None,
    })
}

fn queueing<K: Keeper<Held = u32>>(heap: &mut Heap<K>, ask: &Ask) -> Option<Answer> {
    Some(match ask {
        Ask::MakeQueue { .. } => queue(heap.queue()),
        Ask::Poll { queue, .. } => handle_or_null(heap.poll(Queue::of(*queue))),
        Ask::Remove { queue, .. } => handle(heap.remove(Queue::of(*queue))),
        _ => return None,
    })
}

// ---- Cleaners, names and the rest

fn result_of(outcome: Outcome) -> Result<(), Fault> {
    match outcome {
        Outcome::Ok => Ok(()),
        Outcome::Failed(fault) => Err(fault),
    }
}

fn finish<K: Keeper<Held = u32>>(
    heap: &mut Heap<K>,
    by: u8,
    action: ActionNo,
    outcome: Result<(), Fault>,
) -> Result<(), Refusal> {
    if by == 255 {
        heap.finish_cleaner(action, outcome)
    } else {
        heap.finish(action, outcome)
    }
}

fn registering<K: Keeper<Held = u32>>(heap: &mut Heap<K>, ask: &Ask) -> Option<Answer> {
    Some(match ask {
        Ask::MakeCleaner { .. } => cleaner(heap.cleaner()),
        Ask::Register {
            cleaner,
            object,
            note,
            ..
        } => cleanable(heap.register(Cleaner::of(*cleaner), *object, *note)),
        Ask::Finish {
            by,
            action,
            outcome,
        } => done(finish(heap, *by, *action, result_of(*outcome))),
        Ask::Prepare { .. } => done(heap.prepare()),
        _ => return None,
    })
}

fn naming<K: Keeper<Held = u32>>(heap: &mut Heap<K>, ask: &Ask) -> Option<Answer> {
    Some(match ask {
        Ask::Bind { name, object, .. } => done(heap.bind(name.copy(), *object)),
        Ask::Find { name, .. } => handle(heap.find(name.copy())),
        Ask::Unbind { name, .. } => done(heap.unbind(name.copy())),
        Ask::Full { mode, .. } => done(match mode {
            FullMode::Policy => heap.gc(),
            FullMode::ClearAll => heap.gc_soft(),
        }),
        Ask::Stat { .. } => stat(heap.stat()),
        _ => return None,
    })
}

fn listing<K: Keeper<Held = u32>>(heap: &mut Heap<K>, ask: &Ask) -> Option<Answer> {
    Some(match ask {
        Ask::Names { .. } => match heap.names() {
            Ok(names) => Answer::Names(names),
            Err(by) => Answer::Refused(by),
        },
        Ask::Notes { .. } => match heap.notes() {
            Ok(notes) => Answer::Notes(notes),
            Err(by) => Answer::Refused(by),
        },
        Ask::Faults { .. } => match heap.faults() {
            Ok(faults) => Answer::Faults(faults),
            Err(by) => Answer::Refused(by),
        },
        _ => return None,
    })
}

// ---- What guards hold

fn taking<K: Keeper<Held = u32>>(heap: &mut Heap<K>, ask: &Ask) -> Option<Reply<u32>> {
    Some(match ask {
        Ask::CheckOut { guard, .. } => lent(heap.check_out(Guard::of(*guard))),
        Ask::Close { guard, .. } => job(heap.stop(Guard::of(*guard))),
        Ask::Clean { cleanable, .. } => job(heap.clean(Cleanable::of(*cleanable))),
        Ask::TakeUp => job(heap.next_job()),
        _ => return None,
    })
}

/// What the call gives that stands for this ask.
fn asked<K: Keeper<Held = u32>>(heap: &mut Heap<K>, ask: &Ask) -> Option<Reply<u32>> {
    if let Some(answer) = object(heap, ask) {
        return Some(plain(answer));
    }
    if let Some(answer) = field(heap, ask) {
        return Some(plain(answer));
    }
    if let Some(answer) = referring(heap, ask) {
        return Some(plain(answer));
    }
    if let Some(answer) = queueing(heap, ask) {
        return Some(plain(answer));
    }
    if let Some(answer) = registering(heap, ask) {
        return Some(plain(answer));
    }
    if let Some(answer) = naming(heap, ask) {
        return Some(plain(answer));
    }
    if let Some(answer) = listing(heap, ask) {
        return Some(plain(answer));
    }
    taking(heap, ask)
}

/// What the call gives that stands for this event; none for a piece of marking.
pub(super) fn called<K: Keeper<Held = u32>>(
    heap: &mut Heap<K>,
    event: &Event<u32>,
) -> Option<Reply<u32>> {
    match event {
        Event::Ask(ask) => asked(heap, ask.get()),
        Event::Opened { outcome, .. } => Some(match outcome {
            Ok(held) => guard(heap.adopt(*held)),
            Err(fault) => plain(done(heap.give_up(*fault))),
        }),
        Event::CheckIn {
            outcome,
            resource,
            ..
        } => Some(back(match outcome {
            CallOutcome::Failed(fault) => heap.check_in(*resource, Err(*fault)),
            _ => heap.check_in(*resource, Ok(())),
        })),
        Event::Mark { .. } => None,
    }
}
