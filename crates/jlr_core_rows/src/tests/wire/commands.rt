//! Each command once, and the ends of its numbers and lengths.
use super::cases::is_case;
use super::{Topic, play};
use jlr_wire::command::read_command;
use std::test::Fail;

const ROWS: &str = "
    new - -> New -
    new r -> New r
    new i -> New i
    new ri -> New ri
    new rrrrrrrr -> New rrrrrrrr
    new rirririr -> New rirririr
    array 1 -> Array 1
    array 17 -> Array 17
    array 4096 -> Array 4096
    put 1 0 255 -> Put 1 0 255
    put 1 4095 2 -> Put 1 4095 2
    get 1 300 -> Get 1 300
    int 1 4095 -> Int 1 4095
    setint 1 1000 5 -> SetInt 1 1000 5
    get 2 7 -> Get 2 7
    int 1 0 -> Int 1 0
    int 255 255 -> Int 255 255
    dup 3 -> Dup 3
    drop 4 -> Drop 4
    same 0 10 -> Same 0 10
    setint 1 0 5 -> SetInt 1 0 5
    setint 1 1 0 -> SetInt 1 1 0
    setint 255 255 -1 -> SetInt 255 255 -1
    setint 1 1 -10 -> SetInt 1 1 -10
    setint 1 1 256 -> SetInt 1 1 256
    setint 1 1 9223372036854775807 -> SetInt 1 1 9223372036854775807
    setint 1 1 -9223372036854775808 -> SetInt 1 1 -9223372036854775808
    soft 12 13 -> Soft 12 13
    weak 5 6 -> Weak 5 6
    phantom 200 0 -> Phantom 200 0
    deref 250 -> Deref 250
    refers 8 9 -> Refers 8 9
    clear 14 -> Clear 14
    enqueue 15 -> Enqueue 15
    enqueued 16 -> Enqueued 16
    queue -> Queue
    poll 17 -> Poll 17
    remove 18 -> Remove 18
    cleaner -> Cleaner
    register 1 2 0 -> Register 1 2 0
    register 255 0 7 -> Register 255 0 7
    register 1 2 256 -> Register 1 2 256
    register 1 2 4294967295 -> Register 1 2 4294967295
    clean 9 -> Clean 9
    notes -> Notes
    faults -> Faults
    gc -> Full Policy
    gc soft -> Full ClearAll
    stat -> Stat
    bye -> Bye
    open r /tmp/a -> Open Read /tmp/a
    open w r -> Open Write r
    open r !~ -> Open Read !~
    connect /run/s -> Connect /run/s
    connect w -> Connect w
    read 9 1 -> Read 9 1
    read 0 99 -> Read 0 99
    read 255 200 -> Read 255 200
    write 9 0102 -> Write 9 1 2
    write 0 00 -> Write 0 0
    write 255 fF -> Write 255 255
    write 1 0123456789abcdefABCDEF -> Write 1 1 35 69 103 137 171 205 239 171 205 239
    close 250 -> Close 250
    bind a 1 -> Bind a 1
    bind 0 255 -> Bind 0 255
    bind az_09 7 -> Bind az_09 7
    find _ -> Find _
    unbind names -> Unbind names
    names -> Names
    open r (p×255) -> Open Read (p×255)
    open w /(~×254) -> Open Write /(~×254)
    connect (/×255) -> Connect (/×255)
    find (z×32) -> Find (z×32)
    unbind (9×32) -> Unbind (9×32)
    write 1 (0×400) -> Write 1( 0×200)
";

/// Whether a line is read as the command of these words.
pub(super) fn is_read(line: &str, wanted: &str) -> bool {
    match read_command(line.as_bytes()) {
        Ok(command) => is_case(&command, wanted),
        Err(_) => false,
    }
}

#[test]
fn lines_are_read_as_their_commands(rt: HostRuntime) -> Result<(), Fail> {
    play(rt.alloc(), Topic::Commands, ROWS)
}
