//! Cleaners, and guards over tokens: numbers by which the program knows its own files, sockets and the like. A heap
//! gives a token back once.
ghost use Rattle.std.specs.Prelude.{◌≡◌, Err, MatchOption, Ok};
ghost use Rattle.jlr_embed.specs.Tells.{fault_numbered, outcome_numbered};
ghost use Rattle.jlr_embed.specs.Ways.{Adopts, EndsOnly, EndsCarrying, GivesHandle, GivesJob, GivesToken, IsOutOfRange};
ghost use Rattle.refheap_c.specs.Layouts.{call_outcome};

use jlr_embed::handle::out::Taken;
use jlr_embed::handle::status::RANGE;
use jlr_embed::handle::{Heap, calls, tell};
use jlr_event::event::Event;
use jlr_machine::ask::{Ask, CallOutcome, Outcome};
use jlr_machine::text::WriteCount;
use jlr_types::{ActionNo, Handle, Mutator};
use std::alloc::Global;

/// A cleaner.
#[unsafe(no_mangle)]
pub extern "C" fn refheap_cleaner(alloc: Global, heap: &mut Heap, by: u8, out: &mut u8) -> u32
    ensures { GivesHandle heap.old.value (Event.Ask (Ask.MakeCleaner by)) result out.old out.new heap.new.value }
{
    let ask = Ask::MakeCleaner {
        mutator: Mutator::new(by),
    };
    calls::makes(alloc, heap, ask, out)
}

/// An action that is known by a note is registered on an object: its cleanable.
#[unsafe(no_mangle)]
pub extern "C" fn refheap_register(
    alloc: Global,
    heap: &mut Heap,
    by: u8,
    cleaner: u8,
    object: u8,
    note: u32,
    out: &mut u8,
) -> u32
    ensures { GivesHandle heap.old.value (Event.Ask (Ask.Register by cleaner object note)) result out.old out.new
        heap.new.value }
{
    let ask = Ask::Register {
        mutator: Mutator::new(by),
        cleaner: Handle::new(cleaner),
        object: Handle::new(object),
        note,
    };
    calls::makes(alloc, heap, ask, out)
}

/// An action is taken up by the program, which does it now and tells its end by `refheap_finish`: its job, or 34 where
/// it was taken up before.
#[unsafe(no_mangle)]
pub extern "C" fn refheap_clean(
    alloc: Global,
    heap: &mut Heap,
    by: u8,
    cleanable: u8,
    out: &mut Taken,
) -> u32
    ensures { GivesJob heap.old.value (Event.Ask (Ask.Clean by cleanable)) result out.old out.new heap.new.value }
{
    let event = Event::ask(Ask::Clean {
        mutator: Mutator::new(by),
        cleanable: Handle::new(cleanable),
    });
    calls::takes(alloc, heap, event, out)
}

/// Room is made for a token that is about to be adopted. It may take memory. The mutator then asks nothing else before
/// `refheap_adopt` or `refheap_give_up`.
#[unsafe(no_mangle)]
pub extern "C" fn refheap_prepare(alloc: Global, heap: &mut Heap, by: u8) -> u32
    ensures { EndsOnly heap.old.value (Event.Ask (Ask.Prepare by)) result heap.new.value }
{
    let ask = Ask::Prepare {
        mutator: Mutator::new(by),
    };
    calls::does(alloc, heap, ask)
}

/// A token is handed in after `refheap_prepare`: its guard. Where it returns anything but 0, the program has the token
/// still.
#[unsafe(no_mangle)]
pub extern "C" fn refheap_adopt(
    alloc: Global,
    heap: &mut Heap,
    by: u8,
    token: u64,
    out: &mut u8,
) -> u32
    ensures { Adopts heap.old.value (Event.Opened by (Ok token)) result out.old out.new heap.new.value }
{
    let event = Event::Opened {
        mutator: Mutator::new(by),
        outcome: Ok(token),
    };
    calls::adopts(alloc, heap, event, out)
}

/// What was to be adopted could not be opened, by a fault, 1 to 3, and else it returns 33: the room that was prepared
/// is let go.
#[unsafe(no_mangle)]
pub extern "C" fn refheap_give_up(alloc: Global, heap: &mut Heap, by: u8, fault: u32) -> u32
    ensures { MatchOption (fault_numbered fault) (IsOutOfRange heap.old.value result heap.new.value)
        (λ known. EndsCarrying heap.old.value (Event.Opened by (Err known)) result heap.new.value) }
{
    let Some(known) = tell::fault(fault) else {
        return RANGE;
    };
    let event = Event::Opened {
        mutator: Mutator::new(by),
        outcome: Err(known),
    };
    calls::brings(alloc, heap, event)
}

/// A token is given out for a call on what it stands for, until `refheap_check_in`.
#[unsafe(no_mangle)]
pub extern "C" fn refheap_check_out(
    alloc: Global,
    heap: &mut Heap,
    by: u8,
    guard: u8,
    out: &mut u64,
) -> u32
    ensures { GivesToken heap.old.value (Event.Ask (Ask.CheckOut by guard)) result out.old out.new heap.new.value }
{
    let event = Event::ask(Ask::CheckOut {
        mutator: Mutator::new(by),
        guard: Handle::new(guard),
    });
    calls::lends(alloc, heap, event, out)
}

/// A call ended, well by 0 or by a fault, 1 to 3, and else it returns 33: the token comes back. Where it returns
/// anything but 0, the program has the token still.
#[unsafe(no_mangle)]
pub extern "C" fn refheap_check_in(
    alloc: Global,
    heap: &mut Heap,
    by: u8,
    token: u64,
    fault: u32,
) -> u32
    ensures { MatchOption (outcome_numbered fault) (IsOutOfRange heap.old.value result heap.new.value)
        (λ ended. EndsCarrying heap.old.value (Event.CheckIn by (call_outcome ended) token) result heap.new.value) }
{
    let Some(ended) = tell::outcome(fault) else {
        return RANGE;
    };
    let event = Event::CheckIn {
        mutator: Mutator::new(by),
        outcome: call_ended(ended),
        resource: token,
    };
    calls::brings(alloc, heap, event)
}

/// How a call ended.
fn call_ended(ended: Outcome) -> CallOutcome
    ensures { result ≡ call_outcome ended }
{
    match ended {
        Outcome::Ok => CallOutcome::Wrote(nothing_written()),
        Outcome::Failed(fault) => CallOutcome::Failed(fault),
    }
}

/// No bytes.
fn nothing_written() -> WriteCount
    ensures { result ≡ 0 }
{
    WriteCount::new(0).unwrap()
}

/// A guard is closed: its token is given back for good, with the number of the action, whose end the program tells by
/// `refheap_finish`; or 34 where it was taken up before.
#[unsafe(no_mangle)]
pub extern "C" fn refheap_stop(
    alloc: Global,
    heap: &mut Heap,
    by: u8,
    guard: u8,
    out: &mut Taken,
) -> u32
    ensures { GivesJob heap.old.value (Event.Ask (Ask.Close by guard)) result out.old out.new heap.new.value }
{
    let event = Event::ask(Ask::Close {
        mutator: Mutator::new(by),
        guard: Handle::new(guard),
    });
    calls::takes(alloc, heap, event, out)
}

/// A step of the cleaner: the next action in line is taken up, with its note or its token, or 34 where nothing stands
/// in line. The program does it and tells its end by `refheap_finish` in the name of 255; until then it returns 11,
/// busy.
#[unsafe(no_mangle)]
pub extern "C" fn refheap_take_up(alloc: Global, heap: &mut Heap, out: &mut Taken) -> u32
    ensures { GivesJob heap.old.value (Event.Ask Ask.TakeUp) result out.old out.new heap.new.value }
{
    calls::takes(alloc, heap, Event::ask(Ask::TakeUp), out)
}

/// An action that was taken up ended, well by 0 or by a fault, 1 to 3, and else it returns 33. `by` is the mutator that
/// took it up, or 255 for the cleaner.
#[unsafe(no_mangle)]
pub extern "C" fn refheap_finish(
    alloc: Global,
    heap: &mut Heap,
    by: u8,
    action: u64,
    fault: u32,
) -> u32
    ensures { MatchOption (outcome_numbered fault) (IsOutOfRange heap.old.value result heap.new.value)
        (λ ended. EndsOnly heap.old.value (Event.Ask (Ask.Finish by action ended)) result heap.new.value) }
{
    let Some(ended) = tell::outcome(fault) else {
        return RANGE;
    };
    let ask = Ask::Finish {
        by,
        action: ActionNo::new(action),
        outcome: ended,
    };
    calls::does(alloc, heap, ask)
}
