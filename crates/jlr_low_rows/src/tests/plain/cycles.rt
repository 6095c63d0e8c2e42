//! Background collections.
use super::play::play_all;
use std::test::Fail;

const LISTS: &str = "
-- `Join, Collect, Abandon, Begin, Begin, Abandon`
== cycle
    join -> done
    collect -> no
    abandon -> no
    begin -> yes
    begin -> no
    abandon -> yes

-- `Join, New r, New -, Put 1 0 2, Drop 2, Begin, Get 1 0, Put 1 0 0, Collect, Stat`
== snapshot
    join -> done
    new r -> handle 1, in 0
    new -> handle 2, in 1
    put 1 0 2 -> done
    drop 2 -> done
    begin -> yes
    get 1 0 -> handle 2
    put 1 0 0 -> done
    collect -> yes, keeps 0 1
    stat -> stat 2 0 0 0 0

-- `Join, New -, MakeRef weak 1 0, Drop 1, Begin, Deref 2, Collect, Deref 2`
== deref in cycle
    join -> done
    new -> handle 1, in 0
    weak 1 0 -> handle 2, in 1
    drop 1 -> done
    begin -> yes
    deref 2 -> handle 1
    collect -> yes, keeps 0 1
    deref 2 -> handle 3

-- `Join, MakeQueue, New -, MakeRef weak 2 1, Drop 2, Begin, Drop 3, Collect, HandOver, Poll 1`, by what was seen
== seen reference
    join -> done
    queue -> handle 1, in 0
    new -> handle 2, in 1
    weak 2 1 -> handle 3, in 2
    drop 2 -> done
    begin -> yes
    drop 3 -> done
    collect -> yes, keeps 0 2, pends 2
    hand_over -> queued
    poll 1 -> handle 2

-- `Join, New -, MakeRef soft 1 0, Drop 1, Begin, Collect, Deref 2` with a soft age of 0
== soft cleared in cycle
    join -> done
    new -> handle 1, in 0
    soft 1 0 -> handle 2, in 1
    drop 1 -> done
    begin -> yes
    collect -> yes, keeps 1
    deref 2 -> handle 0

-- The same with a soft age of 1
== soft kept in cycle
    join -> done
    new -> handle 1, in 0
    soft 1 0 -> handle 2, in 1
    drop 1 -> done
    begin -> yes
    collect -> yes, keeps 0 1
    deref 2 -> handle 1

-- `Join, New r, New r, Put 1 0 2, Drop 2, Begin, Collect, Collect`: the first Collect may answer no
== waiting collect
    join -> done
    new r -> handle 1, in 0
    new r -> handle 2, in 1
    put 1 0 2 -> done
    drop 2 -> done
    begin -> yes
    collect -> no
    collect -> yes, keeps 0 1

-- `Join`, sixteen `New -`, `Begin, New -, Collect, Drop 1, New -`: a full heap closes the cycle
== full heap in cycle
    join -> done
    new -> handle 1, in 0
    new -> handle 2, in 1
    new -> handle 3, in 2
    new -> handle 4, in 3
    new -> handle 5, in 4
    new -> handle 6, in 5
    new -> handle 7, in 6
    new -> handle 8, in 7
    new -> handle 9, in 8
    new -> handle 10, in 9
    new -> handle 11, in 10
    new -> handle 12, in 11
    new -> handle 13, in 12
    new -> handle 14, in 13
    new -> handle 15, in 14
    new -> handle 16, in 15
    begin -> yes
    new -> refused HeapFull, keeps 0 1 2 3 4 5 6 7 8 9 10 11 12 13 14 15
    collect -> no
    drop 1 -> done
    new -> handle 1, keeps 1 2 3 4 5 6 7 8 9 10 11 12 13 14 15, in 0

-- `Join, MakeQueue, New -, MakeRef weak 2 1, Enqueue 3, Drop 3, Drop 2, Begin, Poll 1, Collect, Enqueued 2, Stat`
== poll in cycle
    join -> done
    queue -> handle 1, in 0
    new -> handle 2, in 1
    weak 2 1 -> handle 3, in 2
    enqueue 3 -> yes
    drop 3 -> done
    drop 2 -> done
    begin -> yes
    poll 1 -> handle 2
    collect -> yes, keeps 0 2
    enqueued 2 -> no
    stat -> stat 2 0 0 0 0

-- `Join`, sixteen `New -`, `Drop 1` to `Drop 8`, `Begin, Collect, Stat`, eight `New -`, `Stat`
== many dropped
    join -> done
    new -> handle 1, in 0
    new -> handle 2, in 1
    new -> handle 3, in 2
    new -> handle 4, in 3
    new -> handle 5, in 4
    new -> handle 6, in 5
    new -> handle 7, in 6
    new -> handle 8, in 7
    new -> handle 9, in 8
    new -> handle 10, in 9
    new -> handle 11, in 10
    new -> handle 12, in 11
    new -> handle 13, in 12
    new -> handle 14, in 13
    new -> handle 15, in 14
    new -> handle 16, in 15
    drop 1 -> done
    drop 2 -> done
    drop 3 -> done
    drop 4 -> done
    drop 5 -> done
    drop 6 -> done
    drop 7 -> done
    drop 8 -> done
    begin -> yes
    collect -> yes, keeps 8 9 10 11 12 13 14 15
    stat -> stat 8 0 0 0 0
    new -> handle 1, in 0
    new -> handle 2, in 1
    new -> handle 3, in 2
    new -> handle 4, in 3
    new -> handle 5, in 4
    new -> handle 6, in 5
    new -> handle 7, in 6
    new -> handle 8, in 7
    stat -> stat 16 0 0 0 0
";

#[test]
fn rows_of_cycles_are_runs(rt: HostRuntime) -> Result<(), Fail> {
    play_all(rt.alloc(), LISTS)
}
