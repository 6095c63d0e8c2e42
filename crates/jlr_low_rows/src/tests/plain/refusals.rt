//! Refusals, full heaps and names.
use super::play::play_all;
use std::test::Fail;

const LISTS: &str = "
-- `get 9 0; dup 0; new ri; poll 1; get 1 2; get 1 1; setint 1 0 5; find x; queue; remove 2; weak 0 2; weak 1 1; setint
-- 1 1 -9223372036854775808; int 1 1`
== refused
    join -> done
    get 9 0 -> refused NoHandle
    dup 0 -> refused Null
    new ri -> handle 1, in 0
    poll 1 -> refused WrongKind
    get 1 2 -> refused NoField
    get 1 1 -> refused WrongType
    set_int 1 0 5 -> refused WrongType
    find x -> refused NoName
    queue -> handle 2, in 1
    remove 2 -> refused WouldWait
    weak 0 2 -> refused Null
    weak 1 1 -> refused WrongKind
    set_int 1 1 -9223372036854775808 -> done
    int 1 1 -> int -9223372036854775808
    leave -> done

-- A `Drop` before `Join`, a `CheckIn` with no call in flight, a second `CheckOut`
== wrong moment
    drop 1 -> refused NoSession
    join -> done
    check_in 1 0 -> refused NotOut
    prepare -> prepared 0, in 0 1
    opened 0 -> handle 1
    check_out 1 -> out 0
    check_out 1 -> refused Busy

-- With the next action 2^64 - 1 no action can be registered
== exhausted: no action left
    join -> done
    cleaner -> handle 1, in 0
    new -> handle 2, in 1
    register 1 2 7 -> refused Exhausted

-- Sixteen `new -`, then `new -; drop 1; new -`
== full heap
    join -> done
    new -> handle 1, in 0
    new -> handle 2, in 1
    new -> handle 3, in 2
    new -> handle 4, in 3
    new -> handle 5, in 4
    new -> handle 6, in 5
    new -> handle 7, in 6
    new -> handle 8, in 7
    new -> handle 9, in 8
    new -> handle 10, in 9
    new -> handle 11, in 10
    new -> handle 12, in 11
    new -> handle 13, in 12
    new -> handle 14, in 13
    new -> handle 15, in 14
    new -> handle 16, in 15
    new -> refused HeapFull, keeps 0 1 2 3 4 5 6 7 8 9 10 11 12 13 14 15
    drop 1 -> done
    new -> handle 1, keeps 1 2 3 4 5 6 7 8 9 10 11 12 13 14 15, in 0
    leave -> done

-- `new -; soft 1 0; drop 1` eight times, then `new -`, `deref 2` to `deref 9`, `stat`
== soft full
    join -> done
    new -> handle 1, in 0
    soft 1 0 -> handle 2, in 1
    drop 1 -> done
    new -> handle 1, in 2
    soft 1 0 -> handle 3, in 3
    drop 1 -> done
    new -> handle 1, in 4
    soft 1 0 -> handle 4, in 5
    drop 1 -> done
    new -> handle 1, in 6
    soft 1 0 -> handle 5, in 7
    drop 1 -> done
    new -> handle 1, in 8
    soft 1 0 -> handle 6, in 9
    drop 1 -> done
    new -> handle 1, in 10
    soft 1 0 -> handle 7, in 11
    drop 1 -> done
    new -> handle 1, in 12
    soft 1 0 -> handle 8, in 13
    drop 1 -> done
    new -> handle 1, in 14
    soft 1 0 -> handle 9, in 15
    drop 1 -> done
    new -> handle 1, keeps 1 3 5 7 9 11 13 15, in 0
    deref 2 -> handle 0
    deref 3 -> handle 0
    deref 4 -> handle 0
    deref 5 -> handle 0
    deref 6 -> handle 0
    deref 7 -> handle 0
    deref 8 -> handle 0
    deref 9 -> handle 0
    stat -> stat 9 0 0 0 0
    leave -> done

-- `new -; bind b 1; bind a 1; bind b 1; names; drop 1; gc; find a; unbind b; names`
== names
    join -> done
    new -> handle 1, in 0
    bind b 1 -> done
    bind a 1 -> done
    bind b 1 -> done
    names -> names b a
    drop 1 -> done
    full -> done, keeps 0
    find a -> handle 1
    unbind b -> done
    names -> names a
    leave -> done

-- All 256 names, of two letters each, are bound to one object.
== no name is left
    join -> done
    new -> handle 1, in 0
    bind every name 1
    bind z 1 -> refused NamesFull
    bind pp 1 -> done
";

#[test]
fn rows_of_refusals_are_runs(rt: HostRuntime) -> Result<(), Fail> {
    play_all(rt.alloc(), LISTS)
}
