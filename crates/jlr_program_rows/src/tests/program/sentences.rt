//! What `audit --explain` says: each ask, answer and refusal in words, and each rule that an entry may break.
//!
//! Lists are parted by empty lines. The first line of a list, which ends with a colon, says what its rows show. The
//! second is a row of `verdicts`, in which a `#` stands on each side of the arrow for what the rows behind it have
//! there. Asks, answers and choices are spelled as the page of trace files says.
use std::alloc::Global;
use std::test::Fail;

pub(super) const LISTS: &str = "
    each ask, of a mutator that is not joined, and a join of one that may not join:
    93 00 # 00 00 00 0100 00 00 -> 3||illegal 1 version 1 entry 1 of seat 0, # of mutator 5, answered ok: \
    it has to be refused 13, since the mutator is not joined, or may not join
    0005 -> join
    0105 -> leave
    0205 00 -> new -
    0205 0172 -> new r
    0205 08 6972726969697272 -> new irriiirr
    0305 01 07 02 -> put 1 7 2
    0405 01 07 -> get 1 7
    0505 01 07 fffffffffffffffe -> setint 1 7 -2
    0605 01 07 -> int 1 7
    0705 01 -> dup 1
    0805 01 -> drop 1
    0905 01 02 -> same 1 2
    0a05 00 01 02 -> soft 1 2
    0a05 01 01 02 -> weak 1 2
    0a05 02 01 02 -> phantom 1 2
    0b05 01 -> deref 1
    0c05 01 02 -> refers 1 2
    0d05 01 -> clear 1
    0e05 01 -> enqueue 1
    0f05 01 -> enqueued 1
    1005 -> queue
    1105 01 -> poll 1
    1205 01 -> remove 1
    1305 -> cleaner
    1405 01 02 00000003 -> register 1 2 3
    1505 01 -> clean 1
    1605 -> prepare
    1705 00 -> opened
    1805 01 -> checkout 1
    1905 00 02 0a0b -> checkin
    1a05 01 -> close 1
    1b05 0000000000000003 00 -> finish
    1c05 02 6162 03 -> bind ab 3
    1d05 02 6162 -> find ab
    1e05 02 6162 -> unbind ab
    1f05 -> names
    2005 00 -> gc
    2005 01 -> gc soft
    2105 -> stat
    2205 -> notes
    2305 -> faults

    asks that version 2 spells otherwise:
    two 93 00 # 00 00 00 0100 00 00 -> 3||illegal 1 version 2 entry 1 of seat 0, # of mutator 5, answered ok: \
    it has to be refused 13, since the mutator is not joined, or may not join
    0305 01 0fff 02 -> put 1 4095 2
    2905 0100 -> array 256

    asks of no mutator:
    93 09 # 00 00 0000 00 00 -> 3||illegal 1 version 1 entry 1 of seat 9, #
    1bff 0000000000000003 00 00 -> finish, answered ok: it has to be refused 17, since it ends a call that is not under way
    24 0f00 -> handover, answered a reference went to its queue: another answer is due: there was nothing
    25 0f01 -> takeup, answered a cleanable went into the cleaner's line: another answer is due: there was nothing
    26 0200 -> begin, answered no: another answer is due: yes
    27 0201 -> collect, answered yes: its answer is none that may be given
    28 0201 -> abandon, answered yes: another answer is due: no

    each answer, to an ask that is answered yes:
    98 00 0900 00 00 # 00 -> 3||illegal 2 version 1 entry 2 of seat 0, same 0 0 of mutator 0, answered #: \
    another answer is due: yes
    00 -> ok
    01fa -> handle 250
    0200 -> no
    03 ffffffffffffffff -> int -1
    04 02 0a0b -> data
    05 02 -> what was written
    06 01 -> a fault
    07 00000000 -> a list
    08 00000000 -> a list
    09 00000000 -> a list
    0a 0000000000000000 0000000000000000 0000000000000000 0000000000000000 0000000000000000 -> counts
    0b 0000000000000001 00 00000002 -> a job
    0c -> done before
    0d 00000001 -> a place for a resource
    0e 00000001 -> a resource
    0f 00 -> a reference went to its queue
    0f 01 -> a cleanable went into the cleaner's line
    0f 02 -> the first one was skipped
    0f 03 -> there was nothing

    each refusal, of an ask that nothing refuses:
    98 00 2100 10 # 00 -> 3||illegal 2 version 1 entry 2 of seat 0, stat of mutator 0, answered refused #
    02 -> 2: a full heap is answered only behind a full collection that clears all soft references and leaves too few cells
    03 -> 3: refused 3 says that a handle that it names is not in use, and that is not so
    04 -> 4: refused 4 says that a handle is needed, and 250 are in use, and that is not so
    05 -> 5: refused 5 says that an object is of another kind, and that is not so
    06 -> 6: refused 6 says that the object has no such field, and that is not so
    07 -> 7: refused 7 says that the field is of the other type, and that is not so
    08 -> 8: refused 8 says that a handle is 0 where an object is needed, and that is not so
    09 -> 9: refused 9 says that no object has that name, and that is not so
    0a -> 10: refused 10 says that the name is new, and 256 are bound, and that is not so
    0b -> 11: refused 11 says that a call is under way, and that is not so
    0c -> 12: refused 12 says that the resource is closed, and that is not so
    0d -> 13: refused 13 says that the mutator is not joined, or may not join, and that is not so
    0e -> 14: refused 14 says that no action number is left, and that is not so
    0f -> 15: refused 15 says that it is no command, and that is not so
    10 -> 16: refused 16 says that it is too long, and that is not so
    11 -> 17: refused 17 says that it ends a call that is not under way, and that is not so
    12 -> 18: refused 18 says that the queue is empty, and that is not so
    13 -> 19: refused 19 says that as many resources are open as there may be, and that is not so

    rules of one entry behind the join:
    98 00 # -> 3||illegal 2 version 1 entry 2 of seat 0, #
    0101 1002 00 -> leave of mutator 1, answered refused 2: \
    it has to be refused 13, since the mutator is not joined, or may not join
    0101 100d 02 01 00000000 -> leave of mutator 1, answered refused 13: a refused ask collects nothing and makes no object
    0101 100d 01 00000000 00000000 -> leave of mutator 1, answered refused 13: a refused ask collects nothing and makes no object
    0100 1001 00 -> leave of mutator 0, answered refused 1: \
    because memory runs out no end of a call is refused, and nothing is collected or made
    2100 1001 02 01 00000000 -> stat of mutator 0, answered refused 1: \
    because memory runs out no end of a call is refused, and nothing is collected or made
    2000 00 00 00 -> gc of mutator 0, answered ok: a collection has to come with it
    2000 00 00 01 00000001 00000000 00000000 -> gc of mutator 0, answered ok: \
    its collection may not come here, or keeps or hands over other objects than it may
    0900 00 00 0201 01 00000000 00000000 -> same 0 0 of mutator 0, answered yes: \
    its collection may not come here, or keeps or hands over other objects than it may
    0200 00 0101 00 -> new - of mutator 0, answered handle 1: \
    it makes 1 object, each in a free cell of its own, and the entry tells others
    0200 00 0101 02 01 00000010 -> new - of mutator 0, answered handle 1: \
    it makes 1 object, each in a free cell of its own, and the entry tells others
    1600 0d 00000000 02 02 00000000 00000000 -> prepare of mutator 0, answered a place for a resource: \
    it makes 2 objects, each in a free cell of its own, and the entry tells others
    1600 00 02 02 00000000 00000001 -> prepare of mutator 0, answered ok: its answer is none that may be given
    0200 00 0102 02 01 00000000 -> new - of mutator 0, answered handle 2: another answer is due: handle 1
    1f00 00 00 -> names of mutator 0, answered ok: another answer is due
    2100 00 00 -> stat of mutator 0, answered ok: another answer is due
    0700 03 0101 00 -> dup 3 of mutator 0, answered handle 1: it has to be refused 3, since a handle that it names is not in use
    0700 00 0101 00 -> dup 0 of mutator 0, answered handle 1: it has to be refused 8, since a handle is 0 where an object is needed
    1d00 02 6162 0101 00 -> find ab of mutator 0, answered handle 1: it has to be refused 9, since no object has that name

    what is due of an object with an integer, which is -7, and a null:
    85 0000000000000004 00 0000 00 00 00 0200 02 6972 0101 02 01 00000000 00 0500 01 00 fffffffffffffff9 00 00 00 # -> \
    3||illegal 4 version 1 entry 4 of seat 0, #
    0600 01 00 03 0000000000000007 00 -> int 1 0 of mutator 0, answered int 7: another answer is due: int -7
    0600 01 01 03 0000000000000000 00 -> int 1 1 of mutator 0, answered int 0: \
    it has to be refused 7, since the field is of the other type
    0600 01 02 03 0000000000000000 00 -> int 1 2 of mutator 0, answered int 0: \
    it has to be refused 6, since the object has no such field
    0b00 01 0100 00 -> deref 1 of mutator 0, answered handle 0: it has to be refused 5, since an object is of another kind
    0400 01 01 0101 00 -> get 1 1 of mutator 0, answered handle 1: another answer is due: handle 0
    0900 01 00 0201 00 -> same 1 0 of mutator 0, answered yes: another answer is due: no

    what is due where 249 handles are in use, and where all are:
    20 00000001 00000000 0100 01 # ffffffff 00 00000000 00000000 00000000 00000000 00000000 00000000 00000000 \
    0000000000000001 0000000000000000 0000000000000000 0000000000000000 0000000000000001 00 0700 01 0101 00 -> \
    3||illegal 1 version 1 entry 1 of seat 0, dup 1 of mutator 0, answered handle 1: #
    000000f9 249*00000000 -> another answer is due: handle 250
    000000fa 250*00000000 -> it has to be refused 4, since a handle is needed, and 250 are in use

    what the handler does with the first of the pending list, a reference, a cleanable, and a reference that was taken off its queue:
    20 # 00 00000000 00000001 00000000 00000000 00000000 00000000 00000000 00000000 \
    0000000000000002 0000000000000000 0000000000000000 0000000000000000 0000000000000001 00 24 0f03 00 -> \
    3||illegal 1 version 1 entry 1 of seat 0, handover, answered there was nothing: another answer is due: #
    00000002 00000000 02 01 ffffffff 00000001 01 00000001 03 00000000 -> a reference went to its queue
    00000001 00000000 05 ffffffff 0000000000000001 00 00000007 01 -> a cleanable went into the cleaner's line
    00000001 00000000 02 01 ffffffff ffffffff 03 -> the first one was skipped

    what is due of an action that was not done, is being done, and was done:
    85 0000000000000006 00 0000 00 00 00 1300 0101 02 01 00000000 00 1400 01 01 00000005 0102 02 01 00000001 # -> \
    3||illegal #
    00 1500 02 0c 00 00 0100 00 00 00 0100 00 00 -> \
    4 version 1 entry 4 of seat 0, clean 2 of mutator 0, answered done before: another answer is due
    00 1500 02 0b 0000000000000001 00 00000005 00 00 2100 00 00 00 0100 00 00 -> \
    5 version 1 entry 5 of seat 0, stat of mutator 0, answered ok: it has to be refused 11, since a call is under way
    00 1500 02 0b 0000000000000001 00 00000005 00 00 1b00 0000000000000001 02 00 00 00 0100 00 00 -> \
    5 version 1 entry 5 of seat 0, finish of mutator 0, answered ok: another answer is due: a fault
    00 1500 02 0b 0000000000000001 00 00000005 00 00 1b00 0000000000000001 00 00 00 00 1500 02 00 00 -> \
    6 version 1 entry 6 of seat 0, clean 2 of mutator 0, answered ok: another answer is due: done before
";

/// A row whose places are filled with what another has on each side of its arrow.
pub(super) fn filled(alloc: Global, pattern: &str, row: &str) -> Result<String, Fail> {
    let (change, wanted) = row.split_once(" -> ").ok_or("no row")?;
    let (before, behind) = pattern.split_once("#").ok_or("no place for a change")?;
    let (between, behind) = behind.split_once("#").ok_or("no place for an end")?;
    Ok(format!(in alloc; "{before}{change}{between}{wanted}{behind}")?)
}
