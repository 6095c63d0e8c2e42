//! Lines that are nearly a command, wrong in each of their fields. A line stands between bars.
use super::{Topic, barred, play};
use jlr_types::Refusal;
use jlr_wire::command::read_command;
use std::test::Fail;

const LINES: &str = "
    == spaces at an end
    ||
    | |
    |put 1 0 2 |
    | put 1 0 2|
    |get 1 0 |
    |dup |
    |gc |
    | gc|
    |gc soft |
    | gc soft|
    |bye |
    | bye|
    |new |
    |queue |
    | queue|
    |poll |
    |stat |
    | stat|
    |int 1 0 |
    |setint 1 0 5 |
    |cleaner |
    |register 1 2 7 |
    | clean 1|
    |notes |
    | faults|
    == other separators than one space
    |get  1 0|
    |get 1  0|
    |gc\r|
    |gc  soft|
    |gc\tsoft|
    |bye\r|
    |new\t-|
    |soft 1  0|
    |phantom  1 0|
    |setint 1 0  5|
    |register 1  2 7|
    == too few fields
    |put|
    |put 1|
    |put 1 0|
    |get|
    |get 1|
    |dup|
    |drop|
    |same|
    |same 1|
    |new|
    |soft|
    |soft 1|
    |weak 1|
    |phantom 1|
    |deref|
    |refers|
    |refers 1|
    |clear|
    |enqueue|
    |enqueued|
    |poll|
    |int|
    |int 1|
    |setint|
    |setint 1|
    |setint 1 0|
    |register|
    |register 1|
    |register 1 2|
    |clean|
    == too many fields
    |new r r|
    |put 1 0 2 3|
    |get 1 0 2|
    |dup 1 2|
    |drop 1 2|
    |same 1 2 3|
    |gc soft soft|
    |soft 1 0 0|
    |weak 1 0 0|
    |phantom 1 0 0|
    |deref 1 2|
    |refers 1 2 3|
    |clear 1 2|
    |enqueue 1 2|
    |enqueued 1 2|
    |queue 1|
    |poll 1 2|
    |int 1 0 5|
    |setint 1 0 5 6|
    |stat 1|
    |cleaner 1|
    |register 1 2 7 8|
    |clean 1 2|
    |notes 1|
    |faults 1|
    == other names
    |GC|
    |Gc|
    |gc gc|
    |gc Soft|
    |gc weak|
    |gc softly|
    |gc 1|
    |soft soft|
    |BYE|
    |Soft 1 0|
    |softer 1 0|
    |enqueues 1|
    |queues|
    |Stat|
    |stats|
    |Int 1 0|
    |getint 1 0|
    |set 1 0 5|
    |setInt 1 0 5|
    |Cleaner|
    |cleaners|
    |registers 1 2 7|
    |cleaned 1|
    |note|
    |fault|
    == other handles and field numbers
    |get 01 0|
    |get 1 00|
    |get +1 0|
    |get -1 0|
    |get 1 4096|
    |array|
    |array 0|
    |array 4097|
    |array 01|
    |array -1|
    |array 2 2|
    |array x|
    |array 65537|
    |array 4294967297|
    |dup 256|
    |dup 1000|
    |dup 0x1|
    |dup a|
    |soft 1 256|
    |soft 01 0|
    |weak 1 -|
    |phantom 1 00|
    |refers 1 null|
    |clear -1|
    |enqueue 01|
    |enqueue 256|
    |enqueued 01|
    |poll 300|
    |int 01 0|
    |int 1 4096|
    |setint 256 0 5|
    |setint 1 00 5|
    |register 256 2 7|
    |register 01 2 7|
    |register 1 256 7|
    |clean 256|
    |clean 01|
    |clean -1|
    == other numbers in each place
    |put 01 0 2|
    |put 256 0 2|
    |put 1 00 2|
    |put 1 4096 2|
    |put 1 0 -1|
    |put 1 0 256|
    |get 256 0|
    |drop 01|
    |drop 256|
    |same 01 1|
    |same 256 1|
    |same 1 01|
    |same 1 256|
    |weak 256 0|
    |weak 01 0|
    |weak 1 256|
    |phantom 01 0|
    |phantom 256 0|
    |phantom 1 256|
    |deref 256|
    |deref 01|
    |refers 01 1|
    |refers 256 1|
    |refers 1 256|
    |clear 256|
    |enqueued 256|
    |poll 01|
    |int 256 0|
    |int 1 00|
    |setint 01 0 5|
    |setint 1 4096 5|
    |register 1 01 7|
    == other layouts and integers
    |new --|
    |new -r|
    |new i-|
    |new rrrrrrrrr|
    |new rirririri|
    |new R|
    |new I|
    |new rx|
    |setint 1 1 -0|
    |setint 1 1 +1|
    |setint 1 1 01|
    |setint 1 1 -01|
    |setint 1 1 00|
    |setint 1 1 -|
    |setint 1 1 --1|
    |setint 1 1 1-|
    |setint 1 1 5x|
    |setint 1 1 0x5|
    |setint 1 1 9223372036854775808|
    |setint 1 1 -9223372036854775809|
    |setint 1 1 18446744073709551616|
    == other notes
    |register 1 2 4294967296|
    |register 1 2 18446744073709551616|
    |register 1 2 07|
    |register 1 2 00|
    |register 1 2 -1|
    |register 1 2 -0|
    |register 1 2 +7|
    |register 1 2 7x|
    |register 1 2 -|
    == other opens
    |open|
    |open r|
    |open r |
    |open r /a |
    |open  r /a|
    |open r  /a|
    |open r\t/a|
    |open r /a /b|
    |Open r /a|
    |opens r /a|
    |open x /a|
    |open R /a|
    |open rw /a|
    |open /a r|
    == other paths
    |open r a b|
    |open r \u{7f}|
    |open w a\u{7f}|
    |open r a\tb|
    |open w a\r|
    |open r \u{e9}|
    |connect a\u{7f}b|
    |connect \u{1f}|
    |connect a b|
    |connect \0|
    |open r (p×256)|
    |open w (p×256)|
    |open r /(~×255)|
    |connect (p×256)|
    |connect (/×300)|
    == other connects
    |connect|
    |connect |
    |connect /a |
    |connect  /a|
    | connect /a|
    |connect\t/a|
    |connect r /a|
    |connect /a /b|
    |Connect /a|
    |connects /a|
    == other reads
    |read|
    |read 1|
    |read 1 |
    |read 1 1 |
    |read 1  1|
    |read  1 1|
    |read 1 1 1|
    |READ 1 1|
    |reads 1 1|
    |read 01 1|
    |read 256 1|
    |read x 1|
    == other counts
    |read 1 0|
    |read 1 201|
    |read 1 256|
    |read 1 257|
    |read 1 01|
    |read 1 00|
    |read 1 +1|
    |read 1 -1|
    |read 1 x|
    |read 1 0x1|
    |read 1 1000|
    == other writes
    |write|
    |write 1|
    |write 1 |
    |write 1 00 |
    |write 1  00|
    |write  1 00|
    |write 1 00\r|
    |write 1 00 00|
    |Write 1 00|
    |wrote 1 00|
    |write 00 00|
    |write 256 00|
    |write x 00|
    == other digits
    |write 1 0|
    |write 1 012|
    |write 1 0g|
    |write 1 G0|
    |write 1 0x|
    |write 1 -1|
    |write 1 /0|
    |write 1 :0|
    |write 1 @0|
    |write 1 `0|
    |write 1 0|
    |write 1 (f×399)|
    |write 1 (0×401)|
    |write 1 (f×402)|
    == other closes and removes
    |close|
    |close |
    |close 1 |
    |close  1|
    |close 1 2|
    |Close 1|
    |closed 1|
    |close 01|
    |close 256|
    |close x|
    |remove|
    |remove |
    |remove 1 |
    | remove 1|
    |remove  1|
    |remove 1 2|
    |Remove 1|
    |removes 1|
    |remove 01|
    |remove 256|
    |remove -1|
    == other binds
    |bind|
    |bind a|
    |bind a |
    |bind a 1 |
    |bind  a 1|
    |bind a  1|
    |bind  1|
    |bind a 1 2|
    |Bind a 1|
    |binds a 1|
    |bind a 01|
    |bind a 256|
    |bind a b|
    |bind A 1|
    |bind aB 1|
    |bind a-b 1|
    |bind a.b 1|
    |bind (a×33) 1|
    == other names of objects
    |find|
    |find |
    |find a |
    |find  a|
    |find a\r|
    |find a b|
    |Find a|
    |finds a|
    |find A|
    |find a/b|
    |find a:b|
    |find `|
    |find {|
    |find @|
    |find \u{e9}|
    |unbind|
    |unbind a |
    | unbind a|
    |unbind a b|
    |Unbind a|
    |unbind Z|
    |unbind [|
    |unbind ^|
    |names |
    |names\r|
    |names a|
    |Names|
    |name|
    |find (a×33)|
    |unbind (_×33)|
";

/// Whether a line between bars is malformed. What stands between none is none.
pub(super) fn is_malformed(barred_line: &str) -> bool {
    match barred(barred_line) {
        Some(line) => matches!(read_command(line.as_bytes()), Err(Refusal::Malformed)),
        None => false,
    }
}

#[test]
fn what_is_nearly_a_command_is_malformed(rt: HostRuntime) -> Result<(), Fail> {
    play(rt.alloc(), Topic::Malformed, LINES)
}
