//! Each sort of reply, and its line without its end. An answer that no command is given has no line.
use super::{Topic, is_line, play};
use std::test::Fail;

const ROWS: &str = "
    done -> ok
    handle 0 -> = 0
    handle 250 -> = 250
    yes -> yes
    no -> no
    refused NoMemory -> ! 1
    refused Malformed -> ! 15
    refused ResourcesFull -> ! 19
    int 0 -> int 0
    int -7 -> int -7
    int 9223372036854775807 -> int 9223372036854775807
    int -9223372036854775808 -> int -9223372036854775808
    stat 9 0 0 0 0 -> stat 9 0 0 0 0
    stat 1 2 12 7 3 -> stat 1 2 12 7 3
    stat 65536 256 18446744073709551615 0 0 -> stat 65536 256 18446744073709551615 0 0
    already_done -> ok
    fault NotFound -> fault notfound
    fault Denied -> fault denied
    fault Other -> fault other
    data - -> end
    data 0102 -> data 0102
    data 009abcdeff10 -> data 009abcdeff10
    data (a5×2) -> data a5a5
    data (a5×199) -> data (a5×199)
    data (a5×200) -> data (a5×200)
    wrote 0 -> wrote 0
    wrote 2 -> wrote 2
    wrote 200 -> wrote 200
    names -> list
    names a -> list a
    names z_9 list 0 -> list z_9 list 0
    notes -> list
    notes 7 -> list 7
    notes 0 4294967295 7 7 -> list 0 4294967295 7 7
    notes (4294967295 ×256) -> list( 4294967295×256)
    faults -> list
    faults 1:Other -> list 1:other
    faults 12:Denied 3:NotFound 18446744073709551615:Other -> list 12:denied 3:notfound 18446744073709551615:other
    nothing -> no line
    prepared 1 -> no line
    out 1 -> no line
    job 1 note 7 -> no line
";

/// Whether this is what an answer with this line comes to.
pub(super) fn is_told(sent: &[u8], well: bool, line: &str) -> bool {
    if line == "no line" {
        return !well && sent.is_empty();
    }
    well && is_line(sent, line)
}

#[test]
fn answers_are_written_as_their_lines(rt: HostRuntime) -> Result<(), Fail> {
    play(rt.alloc(), Topic::Replies, ROWS)
}
