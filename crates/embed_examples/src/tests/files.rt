//! Guarded files, by scripts.
use super::lists::{is_row, limits};
use super::play::{Guarded, play_all};
use super::results::{closed, count, data, done, ended, opened, plain};
use jlr_device::script::{Script, ScriptDevice, ScriptResource, Step};
use jlr_embed::Unrecorded;
use jlr_heap::Heap;
use jlr_heap::files::ReadRoom;
use jlr_heap::handles::Guard;
use jlr_heap::jobs::{Job, What};
use jlr_machine::ask::Answer;
use jlr_types::{Fault, Handle, Work};
use jlr_words::is_reply;
use std::alloc::{AllocError, Global};
use std::test::Fail;

type Files = Heap<Unrecorded<ScriptResource>>;

// The first file is read, then fails, and takes one byte of a write; it ends well. The second is not there. The third
// is denied its end.
const LISTS: &str = "
== a file is read and closed once
    open_read a -> handle 1
    read 1 3 -> data 010203
    read 1 9 -> fault Other
    write 1 0a0b -> wrote 1
    read 1 9 -> data -
    close 1 -> done
    close 1 -> already_done
    read 1 9 -> refused Closed
    open_read b -> fault NotFound
    create c -> handle 2
    close 2 -> fault Denied

== a lost file is finished by the cleaner
    connect a -> handle 1
    drop 1 -> done
    gc -> done
    next -> done
    next -> already_done
    connect b -> fault NotFound
    connect c -> handle 1
    drop 1 -> done
    gc -> done
    next -> fault Denied

== there is room for one
    create a -> handle 1
    create b -> refused ResourcesFull
    write 2 00 -> refused NoHandle
";

fn scripts(alloc: Global) -> Result<Vec<Script>, AllocError> {
    let first = vec![in alloc; 1, 2, 3, 4]?;
    let steps = vec![in alloc; Step::Bytes(first), Step::Fail(Fault::Other), Step::Take(1)]?;
    Ok(vec![in alloc;
        Script {
            opened: Ok(()),
            steps,
            finished: Ok(())
        },
        Script {
            opened: Err(Fault::NotFound),
            steps: Vec::new(alloc),
            finished: Ok(())
        },
        Script {
            opened: Ok(()),
            steps: Vec::new(alloc),
            finished: Err(Fault::Denied)
        },
    ]?)
}

// The guard of a handle; of null, where the word is no number.
fn guard(word: &str) -> Guard {
    Guard::of(Handle::new(word.parse().unwrap_or(0)))
}

fn read(
    alloc: Global,
    heap: &mut Files,
    device: &ScriptDevice,
    guard: Guard,
    count: &str,
) -> Option<Answer> {
    let count = count.parse().ok()?;
    let room = ReadRoom::new(alloc).ok()?;
    Some(data(heap.read(device, guard, count, room)))
}

// One byte for each two letters, all 1: what is written is told by its count.
fn write(heap: &mut Files, device: &ScriptDevice, guard: Guard, digits: &str) -> Answer {
    let bytes = [1; 8];
    let length = (digits.len() / 2).min(8);
    count(heap.write(device, guard, &bytes[..length]))
}

// The next job of the cleaner is done.
fn next(heap: &mut Files) -> Answer {
    match heap.next_job() {
        Ok(Some(Job { action, what })) => match what {
            What::Held(held) => ended(heap.finish_held(action, held)),
            What::Note(_) => Answer::Job {
                action,
                work: Work::Note(0),
            },
        },
        Ok(None) => Answer::AlreadyDone,
        Err(by) => Answer::Refused(by),
    }
}

// What a call gives that opens something.
fn opening(heap: &mut Files, device: &mut ScriptDevice, name: &str, path: &str) -> Option<Answer> {
    Some(match name {
        "open_read" => opened(heap.open_read(device, path)),
        "create" => opened(heap.create(device, path)),
        "connect" => opened(heap.connect(device, path)),
        _ => return None,
    })
}

// What any other gives.
fn calling(
    alloc: Global,
    heap: &mut Files,
    device: &ScriptDevice,
    name: &str,
    guard: Guard,
    more: &str,
) -> Option<Answer> {
    Some(match name {
        "read" => return read(alloc, heap, device, guard, more),
        "write" => write(heap, device, guard, more),
        "close" => closed(heap.close(guard)),
        "drop" => done(heap.drop(guard.handle())),
        "gc" => done(heap.gc()),
        "next" => next(heap),
        _ => return None,
    })
}

fn called(
    alloc: Global,
    heap: &mut Files,
    device: &mut ScriptDevice,
    call: &str,
) -> Option<Answer> {
    let mut words = call.split_whitespace();
    let name = words.next()?;
    let first = words.next().unwrap_or("");
    let more = words.next().unwrap_or("");
    match opening(heap, device, name, first) {
        Some(answer) => Some(answer),
        None => calling(alloc, heap, device, name, guard(first), more),
    }
}

fn holds(alloc: Global, heap: &mut Files, device: &mut ScriptDevice, row: &str) -> bool {
    let Some((call, wanted)) = row.split_once(" -> ") else {
        return false;
    };
    match called(alloc, heap, device, call) {
        Some(answer) => is_reply(&plain(answer), wanted),
        None => false,
    }
}

// The first row that is not as it says.
fn first_wrong<'a>(
    alloc: Global,
    heap: &mut Files,
    device: &mut ScriptDevice,
    rows: &'a str,
) -> Option<&'a str> {
    for row in rows.lines() {
        let row = row.trim();
        if is_row(row) && !holds(alloc, heap, device, row) {
            return Some(row);
        }
    }
    None
}

// The same on a heap of its own.
fn wrong_on<'a>(
    alloc: Global,
    device: &mut ScriptDevice,
    rows: &'a str,
) -> Result<Option<&'a str>, AllocError> {
    let mut heap: Files = Heap::new(alloc, limits()?)?;
    let wrong = first_wrong(alloc, &mut heap, device, rows);
    drop(heap);
    Ok(wrong)
}

/// The same with a device of its own.
pub(super) fn wrong_in<'a>(alloc: Global, rows: &'a str) -> Result<Option<&'a str>, AllocError> {
    let mut device = ScriptDevice::new(scripts(alloc)?, 0);
    let wrong = wrong_on(alloc, &mut device, rows);
    drop(device);
    wrong
}

#[test]
fn calls_on_files_give_what_the_rows_say(rt: HostRuntime) -> Result<(), Fail> {
    play_all(rt.alloc(), &Guarded::Files, LISTS)
}
