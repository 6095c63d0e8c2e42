//! Names of objects.
use super::player::play;
use std::test::Fail;

const SESSIONS: &str = "
    names hold objects:
    new -; bind b 1; bind a 1; bind b 1; names; drop 1; gc; find a; unbind b; names
        -> = 1; ok; ok; ok; list b a; ok; ok; = 1; ok; list a
    find x; unbind x; new -; bind x 1; weak 1 0; drop 1; gc; deref 2; drop 1; unbind x; gc; deref 2; find x
        -> ! 9; ! 9; = 1; ok; = 2; ok; ok; = 1; ok; ok; ok; = 0; ! 9

    there are 256 names:
    new -; 0 to 255: bind n{} 1; bind one_more 1; bind n7 1; unbind n7; bind one_more 1
        -> = 1; 0 to 255: ok; ! 10; ok; ok; ok

    refusals of many kinds:
    get 9 0; dup 0; new ri; poll 1; get 1 2; get 1 1; setint 1 0 5; find x; queue; remove 2; weak 0 2; weak 1 1; setint 1 1 -9223372036854775808; int 1 1; setint 1 1 9223372036854775808
        -> ! 3; ! 8; = 1; ! 5; ! 6; ! 7; ! 7; ! 9; = 2; ! 18; ! 8; ! 5; ok; int -9223372036854775808; ! 15
";

#[test]
fn names(rt: HostRuntime) -> Result<(), Fail> {
    play(rt.alloc(), SESSIONS)
}
