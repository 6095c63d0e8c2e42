//! Copies: histories whose parts are copies are written as those that were read, byte by byte.
use super::older::play_all;
use std::test::Fail;

// A machine with something in every part, and entries with each answer and choice that takes memory. It is no image of
// a heap, so its history is illegal before its first entry; what counts is that it is read, copied and written.
const HISTORIES: &str = "
    a machine is copied in every part, sixteen cells, two sessions, sixteen resources:
    4a4c5254 02 00000010 02 0010 0000000000000000

    a plain object with an integer and two references, a reference that waits, a queue of two, a cleaner, a guard, its cleanable, an array:
    00000007
    00000000 01 03 00 fffffffffffffff9 01 00000001 01 ffffffff
    00000001 02 01 00000000 00000002 00
    00000002 03 00000002 00000007 00000003
    00000004 04
    00000005 06 00000003 00000006
    00000006 05 00000005 0000000000000004 01 00000003 00
    00000007 07 0002 ffffffff 00000009

    parts of a machine are copied, a session with two handles, a fence and a call:
    00
    01 00000002 02 00000000 04 00000005 00000005 02 00000003

    a name, the pending list, the line of the cleaner, a job, a resource, a failure, two notes, and every number:
    00000001 02 6162 00000002
    00000002 00000001 00000006
    00000001 00000006
    00000001 0000000000000008 00 00000015 ff
    00000001 00000003 0000000000000004 02
    00000001 0000000000000002 02
    00000002 0000000b 0000000c
    0000000000000009 0000000000000005 0000000000000003 0000000000000001

    an entry is copied with its choice, a queue that found the heap full:
    0000000000000005
    01 10 01 10 02 03 00000003 00000001 00000004 00000006 00000002 00000006 00000001 02 00000003 00000000

    answers are copied, two names, a failure, data, and a reference that the handler skipped:
    00 1f 01 07 00000002 01 61 02 6263 00
    00 23 01 09 00000001 0000000000000002 02 00
    00 19 01 00 02 0102 04 02 0102 00
    00 24 0f 02 00
    -> illegal 0
";

#[test]
fn copies_are_written_as_what_was_read(rt: HostRuntime) -> Result<(), Fail> {
    play_all(rt.alloc(), HISTORIES)
}
