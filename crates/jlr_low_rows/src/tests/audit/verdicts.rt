//! The verdicts on two histories, one of version 1 and one of version 2, and on what changes make of them.
ghost use Rattle.std.specs.Prelude.{◌≡◌};
ghost use Rattle.jlr_trace.specs.Files.{HasSpelling};

use super::player::{Telling, play_rows};
use jlr_audit::audit::audit;
use jlr_audit::verdict::Verdict;
use jlr_machine::copies::copy_machine;
use jlr_trace::file::{TraceFault, TraceFile, read_trace};
use jlr_trace::writing::write_trace;
use std::alloc::{AllocError, Global};
use std::mem;
use std::test::Fail;

// The head; no objects; no session; seven empty lists; the next action and three counts; two entries: mutator 0 joins
// and leaves.
const FILE: &str = "
    4a4c5254 01 00000010 01 0010 0000000000000000
    00000000 00
    00000000 00000000 00000000 00000000 00000000 00000000 00000000
    0000000000000001 0000000000000000 0000000000000000 0000000000000000
    0000000000000002
    00 00 00 00 00
    00 01 00 00 00
";

// The same of version 2, with three entries: mutator 0 joins, makes an array of two in cell 0, its handle 1, and
// leaves.
const ARRAY_FILE: &str = "
    4a4c5254 02 00000010 01 0010 0000000000000000
    00000000 00
    00000000 00000000 00000000 00000000 00000000 00000000 00000000
    0000000000000001 0000000000000000 0000000000000000 0000000000000000
    0000000000000003
    00 00 00 00 00
    00 29 00 0002 01 01 02 01 00000000
    00 01 00 00 00
";

// A change of the file, and the verdict on it.
const ROWS: &str = "
    the file as it is, and cut:
    front 103 -> legal 2
    front 102 -> Truncated

    the mark, the version, and a byte behind the end:
    for 2 2 58 -> BadMark
    for 5 5 02 -> legal 2
    for 5 5 03 -> BadVersion
    for 5 5 09 -> BadVersion
    for 104 103 00 -> BadEntry(3)

    another mutator leaves, and one that did not join:
    for 101 101 01 -> illegal 2
    for 96 96 01 -> illegal 1

    a number of a next action that no image has:
    for 61 61 00 -> illegal 0

    counts that do not fit one another:
    for 69 69 01 -> illegal 0
    for 61 77 03 0000000000000001 0000000000000001 -> legal 2

    an object in the last cell, and one in a slot that is no cell:
    for 21 24 00000001 0000000f 0100 -> legal 2
    for 21 24 00000001 00000010 0100 -> illegal 0

    a queue with a member that is not there:
    for 21 24 00000001 00000000 0300000001 00000001 -> illegal 0

    a field that names what is not there, and one that names its own object:
    for 21 24 00000001 00000000 0101 0100000001 -> illegal 0
    for 21 24 00000001 00000000 0101 0100000000 -> legal 2

    a mutator that has joined already:
    for 25 25 01 00000000 ffffffff 00 -> illegal 1

    and one whose handle is above 250:
    for 21 25 00000001 00000000 0100 01 00000001 fa 00000000 ffffffff 00 -> illegal 1
    for 21 25 00000001 00000000 0100 01 00000001 fb 00000000 ffffffff 00 -> illegal 0
    for 21 25 00000001 00000000 0100 01 00000001 ff 00000000 ffffffff 00 -> illegal 0

    an answer that no entry has, and a choice:
    for 97 97 0c -> illegal 1
    for 98 98 02 01 00000000 -> illegal 1
    for 98 98 01 00000000 00000000 -> illegal 1

    a refusal with a choice, an end and another ask for which memory ran out, and a heap that is not full:
    for 99 103 00 0101 100d 00 -> legal 2
    for 99 103 00 0101 100d 02 01 00000000 -> illegal 2
    for 99 103 00 0101 100d 01 00000000 00000000 -> illegal 2
    for 99 103 00 0100 1001 00 -> illegal 2
    for 99 103 00 2100 1001 00 -> legal 2
    for 99 103 00 2100 1001 02 01 00000000 -> illegal 2
    for 99 103 00 0200 00 1002 01 00000000 00000000 -> illegal 2

    a collection that is due, and one that is not:
    for 99 103 00 2000 00 00 00 -> illegal 2
    for 99 103 00 2000 00 00 01 00000000 00000000 -> legal 2
    for 99 103 00 2000 00 00 01 00000001 00000000 00000000 -> illegal 2
    for 99 103 00 0900 00 00 0201 01 00000000 00000000 -> illegal 2
    for 99 103 00 27 0201 00 -> illegal 2
    for 99 103 00 27 0200 00 -> legal 2

    a place for a resource, whichever it is, and the cells of a guard and its cleanable:
    for 99 103 00 1600 0d ffffffff 02 02 00000001 0000000f -> legal 2
    for 99 103 00 1600 0d 00000000 02 02 00000000 00000000 -> illegal 2
    for 99 103 00 1600 0d 00000000 02 01 00000000 -> illegal 2
    for 99 103 00 1600 0d 00000000 02 02 00000000 00000010 -> illegal 2

    a history without an entry:
    for 93 103 00 -> legal 0

    damage behind an entry that is not legal, and behind an image that is none:
    for 96 102 01 00 00 00 01 00 11 -> BadEntry(2)
    for 96 103 01 00 00 00 01 00 00 -> Truncated
    for 96 103 01 00 00 00 01 00 00 00 00 -> BadEntry(3)
    for 61 103 00 0000000000000000 0000000000000000 0000000000000000 0000000000000002 00 00 00 00 00 00 2a -> BadEntry(2)
    for 61 103 00 0000000000000000 0000000000000000 0000000000000000 0000000000000002 00 00 00 00 00 00 -> Truncated

    an array, and a field's number of two bytes, of which version 1 reads the first:
    for 21 24 00000001 00000000 07 0001 ffffffff -> BadEntry(0)
    for 95 95 29 -> BadEntry(1)
    for 99 103 00 04 00 01 01 00 00 -> illegal 2
    for 99 103 00 04 00 01 0001 01 00 00 -> BadEntry(3)
";

// The same of the other file.
const ARRAY_ROWS: &str = "
    the file as it is, and in other versions:
    front 116 -> legal 3
    for 5 5 01 -> BadEntry(2)
    for 5 5 03 -> BadVersion

    an array of a length that none has, read whole first, and one in a cell that is none:
    for 102 103 0000 -> BadEntry(2)
    for 102 103 1000 -> legal 3
    for 102 103 1001 -> BadEntry(2)
    for 108 111 00000010 -> illegal 2

    its elements: null, one that is not there, numbers that no array has, and one too great for a field:
    for 112 116 00 04 00 01 0001 01 00 00 -> legal 3
    for 112 116 00 04 00 01 0001 01 01 00 -> illegal 3
    for 112 116 00 04 00 01 0002 10 06 00 -> legal 3
    for 112 116 00 04 00 01 0fff 10 06 00 -> legal 3
    for 112 116 00 04 00 01 1000 10 06 00 -> BadEntry(3)

    an element is set to the array itself; no integer is set or got:
    for 112 116 00 03 00 01 0001 01 00 00 -> legal 3
    for 112 116 00 05 00 01 0000 0000000000000001 10 05 00 -> legal 3
    for 112 116 00 06 00 01 0000 10 05 00 -> legal 3
    for 112 116 00 06 00 01 1000 10 05 00 -> BadEntry(3)

    arrays in the image: in another cell and in this one, with an element that is not there, too short, too long, and in no cell:
    for 21 24 00000001 00000001 07 0002 ffffffff 00000001 -> legal 3
    for 21 24 00000001 00000000 07 0002 ffffffff 00000000 -> illegal 2
    for 21 24 00000001 00000001 07 0001 00000002 -> illegal 0
    for 21 24 00000001 00000001 07 0000 -> BadEntry(0)
    for 21 24 00000001 00000001 07 1001 -> BadEntry(0)
    for 21 24 00000001 00000001 07 1000 -> Truncated
    for 21 24 00000001 00000010 07 0001 ffffffff -> illegal 0
    for 21 24 00000001 00000001 08 -> BadEntry(0)
";

/// The file is written as it was read, and once more where its parts are copies.
pub(super) fn is_written_back(alloc: Global, bytes: &[u8]) -> Result<bool, AllocError> {
    match read_trace(alloc, bytes) {
        Ok(file) => {
            let mut file = file;
            let same = are_written_as(alloc, &mut file, bytes);
            drop(file);
            same
        }
        Err(_) => Ok(true),
    }
}

fn are_written_as(alloc: Global, file: &mut TraceFile, bytes: &[u8]) -> Result<bool, AllocError>
    requires { HasSpelling file.old }
{
    let same = is_written_as(alloc, file, bytes)?;
    put_copied_image(alloc, file)?;
    Ok(same && is_written_as(alloc, file, bytes)?)
}

fn is_written_as(alloc: Global, file: &TraceFile, bytes: &[u8]) -> Result<bool, AllocError>
    requires { HasSpelling file.now }
{
    Ok(write_trace(alloc, file)?.as_slice() == bytes)
}

// A copy in the place of the image.
fn put_copied_image(alloc: Global, file: &mut TraceFile) -> Result<(), AllocError>
    ensures { file.new ≡ file.old }
{
    let image = copy_machine(alloc, &file.image)?;
    drop(mem::replace(&mut file.image, image));
    Ok(())
}

/// A verdict in words.
pub(super) fn verdict_text(
    alloc: Global,
    verdict: Verdict,
    entries: u64,
) -> Result<String, AllocError> {
    match verdict {
        Verdict::Legal => format!(in alloc; "legal {entries}"),
        Verdict::Illegal(number) => format!(in alloc; "illegal {number}"),
    }
}

/// A fault in words.
pub(super) fn fault_text(alloc: Global, fault: TraceFault) -> Result<String, AllocError> {
    format!(in alloc; "{fault:?}")
}

fn verdict_of_file(alloc: Global, file: &TraceFile) -> Result<String, AllocError> {
    let verdict = audit(alloc, file)?;
    verdict_text(alloc, verdict, file.entries.len() as u64)
}

/// The verdict on the bytes, or why they are no file.
pub(super) fn verdict(alloc: Global, bytes: &[u8]) -> Result<String, AllocError> {
    match read_trace(alloc, bytes) {
        Ok(file) => {
            let told = verdict_of_file(alloc, &file);
            drop(file);
            told
        }
        Err(fault) => fault_text(alloc, fault),
    }
}

#[test]
fn files_are_judged_as_the_rows_say(rt: HostRuntime) -> Result<(), Fail> {
    play_rows(rt.alloc(), FILE, ROWS, Telling::Verdict)?;
    play_rows(rt.alloc(), ARRAY_FILE, ARRAY_ROWS, Telling::Verdict)
}
