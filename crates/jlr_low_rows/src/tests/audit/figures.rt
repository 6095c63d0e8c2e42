//! Figures of histories whose bytes are given.
//!
//! Histories are parted by empty lines. Each has a title, its bytes in hexadecimal digits, of which `3 * ` in front of
//! a line stands for three such lines, and behind arrows what is told of its figures: as `json` or as a `table`, the
//! verdict and the lines, each with a bar in front and one space between two words. A line without a bar goes on the
//! one before it, and `..` stands for what is left out. What is wanted was reckoned without the program, by what the
//! pages say of each entry.
use super::verdicts::verdict_text;
use jlr_audit::stats::figures::{Judged, figures_of};
use jlr_audit::stats::json::json_of;
use jlr_audit::stats::table::table_of;
use jlr_trace::streamed::streamed_trace;
use std::alloc::{AllocError, Global};
use std::test::Fail;

const HISTORIES: &str = r#"
    a session that makes an array of two nulls:
    4a4c5254 02 00000010 01 0010 0000000000000000 00000000 00 00000000 00000000 00000000 00000000 00000000 00000000 00000000
    0000000000000001 0000000000000000 0000000000000000 0000000000000000 0000000000000003
    0000000000 00290000020101020100000000 0001000000
    -> json legal 3
    | {"entries":3,"objects":[
    {"after":0,"plain":0,"array":0,"soft":0,"weak":0,"phantom":0,"queue":0,"cleaner":0,"cleanable":0,"guard":0,"open":0},
    {"after":1,"plain":0,"array":0,"soft":0,"weak":0,"phantom":0,"queue":0,"cleaner":0,"cleanable":0,"guard":0,"open":0},
    {"after":2,"plain":0,"array":1,"soft":0,"weak":0,"phantom":0,"queue":0,"cleaner":0,"cleanable":0,"guard":0,"open":0},
    {"after":3,"plain":0,"array":1,"soft":0,"weak":0,"phantom":0,"queue":0,"cleaner":0,"cleanable":0,"guard":0,"open":0}],
    "collections":0,"each":[],
    "all":{"entry":0,"found":0,"freed":0,"soft_kept":0,"soft_cleared":0,"weak_cleared":0,"phantom_cleared":0,"pending":0},
    "longest_queue":0,"most_open":0,"actions":{"ok":0,"notfound":0,"denied":0,"other":0},
    "asks":{"0":{"all":3,"join":1,"leave":1,"array":1}}}
    -> table legal 3
    | Objects after so many entries, and files and sockets open
    | after plain array soft weak phantom queue cleaner cleanable guard open
    | 0 0 0 0 0 0 0 0 0 0 0
    | 1 0 0 0 0 0 0 0 0 0 0
    | 2 0 1 0 0 0 0 0 0 0 0
    | 3 0 1 0 0 0 0 0 0 0 0
    |
    | Collections 0
    | objects freed 0
    | soft references kept 0
    | soft references cleared 0
    | weak references cleared 0
    | phantom references cleared 0
    | set aside for queues and cleaner 0
    |
    | Longest queue 0
    | files and sockets open at most 0
    |
    | Actions that ended well 0
    | that failed: notfound 0
    | that failed: denied 0
    | that failed: other 0
    |
    | Asks all seat 0
    | join 1 1
    | leave 1 1
    | array 1 1

    a session with objects of each kind, collections of them, and files, of which one is not there:
    4a4c5254 02 00000020 01 0010 0000000000000000 00000000 00 00000000 00000000 00000000 00000000 00000000 00000000 00000000
    0000000000000001 0000000000000000 0000000000000000 0000000000000000 000000000000003c
    0000000000 0010000101020100000000 000200000102020100000001 000a000002010103020100000002 000a000002000104020100000003
    000200000105020100000004 000a000105010106020100000005 000a000105010107020100000006 000a000105000108020100000007
    000200000109020100000008 000a00020901010a020100000009 0029000002010b02010000000a 000800020000 000800050000 000800090000
    0020000000010000000900000000000000010000000200000003000000050000000600000007000000090000000a00000003000000050000000600000009
    01240f0000 01240f0000 01240f0000
    000200000102020100000004 000a000102000105020100000008 000a00000b00010902010000000b 000a00000b00010c02010000000c
    000a00010b00010d02010000000d 000800020000 000800050000 000800090000
    0020000100010000000a000000000000000200000003000000050000000600000007000000090000000a0000000c0000000d0000000100000002 01240f0000
    00110001010200
    0013000105020100000001 000200000109020100000004 001400050900000007010e020100000008 0016000d0000000002020000000b0000000e
    00170001060100 001400050900000008010f02010000000f 0016000d0000000002020000001000000011 00170000011000
    000a00020b000111020100000012 0016000d0000000102020000001300000014 00170000011200 0013000113020100000015
    0016000d0000000202020000001600000017 00170000011400 001a00100b0000000000000004010000000000 001b000000000000000004000000
    000800120000 000800090000
    002000000001000000140000000000000001000000020000000300000005000000060000000700000008000000090000000a0000000c0000000d0000000f0000
    001000000011000000120000001400000015000000160000001700000003000000080000000f00000014 01240f0100 01240f0100 01240f0100 01240f0300
    02250b0000000000000001000000000700 021bff0000000000000001000000 02250b0000000000000003000000000800
    021bff000000000000000303060300
    002000000001000000140000000000000001000000020000000300000005000000060000000700000008000000090000000a0000000c0000000d0000000f0000
    001000000011000000120000001400000015000000160000001700000000 00290000030109020100000004 0001000000
    -> json legal 60
    | {"entries":60,"objects":[
    {"after":0,"plain":0,"array":0,"soft":0,"weak":0,"phantom":0,"queue":0,"cleaner":0,"cleanable":0,"guard":0,"open":0},
    {"after":3,"plain":1,"array":0,"soft":0,"weak":0,"phantom":0,"queue":1,"cleaner":0,"cleanable":0,"guard":0,"open":0},
    {"after":6,"plain":2,"array":0,"soft":2,"weak":0,"phantom":0,"queue":1,"cleaner":0,"cleanable":0,"guard":0,"open":0},
    {"after":9,"plain":2,"array":0,"soft":2,"weak":3,"phantom":0,"queue":1,"cleaner":0,"cleanable":0,"guard":0,"open":0},
    {"after":12,"plain":3,"array":1,"soft":2,"weak":3,"phantom":1,"queue":1,"cleaner":0,"cleanable":0,"guard":0,"open":0},
    {"after":15,"plain":3,"array":1,"soft":2,"weak":3,"phantom":1,"queue":1,"cleaner":0,"cleanable":0,"guard":0,"open":0},
    {"after":18,"plain":1,"array":1,"soft":2,"weak":3,"phantom":1,"queue":1,"cleaner":0,"cleanable":0,"guard":0,"open":0},
    {"after":21,"plain":2,"array":1,"soft":2,"weak":4,"phantom":1,"queue":1,"cleaner":0,"cleanable":0,"guard":0,"open":0},
    {"after":24,"plain":2,"array":1,"soft":4,"weak":5,"phantom":1,"queue":1,"cleaner":0,"cleanable":0,"guard":0,"open":0},
    {"after":27,"plain":2,"array":1,"soft":4,"weak":5,"phantom":1,"queue":1,"cleaner":0,"cleanable":0,"guard":0,"open":0},
    {"after":30,"plain":0,"array":1,"soft":3,"weak":4,"phantom":1,"queue":1,"cleaner":0,"cleanable":0,"guard":0,"open":0},
    {"after":33,"plain":1,"array":1,"soft":3,"weak":4,"phantom":1,"queue":1,"cleaner":1,"cleanable":1,"guard":0,"open":0},
    {"after":36,"plain":1,"array":1,"soft":3,"weak":4,"phantom":1,"queue":1,"cleaner":1,"cleanable":3,"guard":1,"open":0},
    {"after":39,"plain":1,"array":1,"soft":3,"weak":4,"phantom":2,"queue":1,"cleaner":1,"cleanable":4,"guard":2,"open":1},
    {"after":42,"plain":1,"array":1,"soft":3,"weak":4,"phantom":2,"queue":1,"cleaner":2,"cleanable":5,"guard":3,"open":2},
    {"after":45,"plain":1,"array":1,"soft":3,"weak":4,"phantom":2,"queue":1,"cleaner":2,"cleanable":6,"guard":4,"open":3},
    {"after":48,"plain":1,"array":1,"soft":3,"weak":4,"phantom":2,"queue":1,"cleaner":2,"cleanable":6,"guard":4,"open":2},
    {"after":51,"plain":0,"array":1,"soft":3,"weak":4,"phantom":2,"queue":1,"cleaner":2,"cleanable":5,"guard":2,"open":2},
    {"after":54,"plain":0,"array":1,"soft":3,"weak":4,"phantom":2,"queue":1,"cleaner":2,"cleanable":5,"guard":2,"open":2},
    {"after":57,"plain":0,"array":1,"soft":3,"weak":4,"phantom":2,"queue":1,"cleaner":2,"cleanable":5,"guard":2,"open":2},
    {"after":60,"plain":0,"array":2,"soft":3,"weak":4,"phantom":2,"queue":1,"cleaner":2,"cleanable":5,"guard":2,"open":2}],
    "collections":4,"each":[
    {"entry":16,"found":11,"freed":2,"soft_kept":2,"soft_cleared":0,"weak_cleared":3,"phantom_cleared":1,"pending":3},
    {"entry":28,"found":14,"freed":4,"soft_kept":1,"soft_cleared":2,"weak_cleared":0,"phantom_cleared":0,"pending":1},
    {"entry":49,"found":24,"freed":4,"soft_kept":1,"soft_cleared":0,"weak_cleared":0,"phantom_cleared":0,"pending":3},
    {"entry":58,"found":20,"freed":0,"soft_kept":1,"soft_cleared":0,"weak_cleared":0,"phantom_cleared":0,"pending":0}],
    "all":{"entry":58,"found":69,"freed":10,"soft_kept":5,"soft_cleared":2,"weak_cleared":3,"phantom_cleared":1,"pending":7},
    "longest_queue":4,"most_open":3,"actions":{"ok":2,"notfound":0,"denied":0,"other":1},
    "asks":{"0":{"all":48,"join":1,"leave":1,"new":5,"array":2,"drop":8,"soft":4,"weak":5,"phantom":2,"queue":1,"poll":1,
    "cleaner":2,"register":2,"prepare":4,"opened":4,"close":1,"finish":1,"gc":3,"gc soft":1},"1":{"all":8,"handover":8},
    "2":{"all":4,"finish":2,"takeup":2}}}
    -> table legal 60
    | Objects after so many entries, and files and sockets open
    | after plain array soft weak phantom queue cleaner cleanable guard open
    | 0 0 0 0 0 0 0 0 0 0 0
    | 3 1 0 0 0 0 1 0 0 0 0
    | 6 2 0 2 0 0 1 0 0 0 0
    | 9 2 0 2 3 0 1 0 0 0 0
    | 12 3 1 2 3 1 1 0 0 0 0
    | 15 3 1 2 3 1 1 0 0 0 0
    | 18 1 1 2 3 1 1 0 0 0 0
    | 21 2 1 2 4 1 1 0 0 0 0
    | 24 2 1 4 5 1 1 0 0 0 0
    | 27 2 1 4 5 1 1 0 0 0 0
    | 30 0 1 3 4 1 1 0 0 0 0
    | 33 1 1 3 4 1 1 1 1 0 0
    | 36 1 1 3 4 1 1 1 3 1 0
    | 39 1 1 3 4 2 1 1 4 2 1
    | 42 1 1 3 4 2 1 2 5 3 2
    | 45 1 1 3 4 2 1 2 6 4 3
    | 48 1 1 3 4 2 1 2 6 4 2
    | 51 0 1 3 4 2 1 2 5 2 2
    | 54 0 1 3 4 2 1 2 5 2 2
    | 57 0 1 3 4 2 1 2 5 2 2
    | 60 0 2 3 4 2 1 2 5 2 2
    |
    | Collections 4
    | objects freed 10
    | soft references kept 5
    | soft references cleared 2
    | weak references cleared 3
    | phantom references cleared 1
    | set aside for queues and cleaner 7
    |
    | Longest queue 4
    | files and sockets open at most 3
    |
    | Actions that ended well 2
    | that failed: notfound 0
    | that failed: denied 0
    | that failed: other 1
    |
    | Asks all seat 0 seat 1 seat 2
    | join 1 1 0 0
    | leave 1 1 0 0
    | new 5 5 0 0
    | array 2 2 0 0
    | drop 8 8 0 0
    | soft 4 4 0 0
    | weak 5 5 0 0
    | phantom 2 2 0 0
    | queue 1 1 0 0
    | poll 1 1 0 0
    | cleaner 2 2 0 0
    | register 2 2 0 0
    | prepare 4 4 0 0
    | opened 4 4 0 0
    | close 1 1 0 0
    | finish 3 1 0 2
    | gc 3 3 0 0
    | gc soft 1 1 0 0
    | handover 8 0 8 0
    | takeup 2 0 0 2

    actions that end: one that finds nothing, two denied, three that fail otherwise, and four well:
    4a4c5254 02 00000010 01 0010 0000000000000000 00000000 00 00000000 00000000 00000000 00000000 00000000 00000000 00000000
    0000000000000001 0000000000000000 0000000000000000 0000000000000000 0000000000000020
    0000000000 0013000101020100000000
    0014000101000000050102020100000001 001500020b0000000000000001000000000500 001b00000000000000000101060100
    0014000101000000050103020100000002 001500030b0000000000000002000000000500 001b00000000000000000202060200
    0014000101000000050104020100000003 001500040b0000000000000003000000000500 001b00000000000000000302060200
    0014000101000000050105020100000004 001500050b0000000000000004000000000500 001b00000000000000000403060300
    0014000101000000050106020100000005 001500060b0000000000000005000000000500 001b00000000000000000503060300
    0014000101000000050107020100000006 001500070b0000000000000006000000000500 001b00000000000000000603060300
    0014000101000000050108020100000007 001500080b0000000000000007000000000500 001b000000000000000007000000
    0014000101000000050109020100000008 001500090b0000000000000008000000000500 001b000000000000000008000000
    001400010100000005010a020100000009 0015000a0b0000000000000009000000000500 001b000000000000000009000000
    001400010100000005010b02010000000a 0015000b0b000000000000000a000000000500 001b00000000000000000a000000
    -> json legal 32
    | {"entries":32,"objects":[..
    "longest_queue":0,"most_open":0,"actions":{"ok":4,"notfound":1,"denied":2,"other":3},
    "asks":{"0":{"all":32,"join":1,"cleaner":1,"register":10,"clean":10,"finish":10}}}
    -> table legal 32
    | Objects after so many entries, and files and sockets open..
    |
    | Longest queue 0
    | files and sockets open at most 0
    |
    | Actions that ended well 4
    | that failed: notfound 1
    | that failed: denied 2
    | that failed: other 3
    |
    | Asks all seat 0
    | join 1 1
    | cleaner 1 1
    | register 10 10
    | clean 10 10
    | finish 10 10

    each kind of ask, each of a seat of its own:
    4a4c5254 02 00000010 01 0010 0000000000000000 00000000 00 00000000 00000000 00000000 00000000 00000000 00000000 00000000
    0000000000000001 0000000000000000 0000000000000000 0000000000000000 000000000000002d
    000001100d00 010100100d00 02020000100d00 03030001000000100d00 040400010000100d00 0505000100000000000000000000100d00
    060600010000100d00 07070001100d00 08080001100d00 0909000000100d00 0a0a00000100100d00 0b0b0001100d00 0c0c000100100d00
    0d0d0001100d00 0e0e0001100d00 0f0f0001100d00 101000100d00 11110001100d00 12120001100d00 131300100d00 141400010100000005100d00
    15150001100d00 161600100d00 17170000100d00 18180001100d00 1919000100100d00 1a1a0001100d00 1b1b00000000000000000100100d00
    1c1c00016101100d00 1d1d000161100d00 1e1e000161100d00 1f1f00100d00 20200000100d00 212100100d00 222200100d00 232300100d00
    24240f0300 25250f0300 2626020100 2727020000 2828020100 2929000001100d00 2a0a00010100100d00 2b0a00020100100d00 2c200001100d00
    -> json legal 45
    | {"entries":45,"objects":[..
    "longest_queue":0,"most_open":0,"actions":{"ok":0,"notfound":0,"denied":0,"other":0},
    "asks":{"0":{"all":1,"join":1},"1":{"all":1,"leave":1},"2":{"all":1,"new":1},"3":{"all":1,"put":1},"4":{"all":1,"get":1},
    "5":{"all":1,"setint":1},"6":{"all":1,"int":1},"7":{"all":1,"dup":1},"8":{"all":1,"drop":1},"9":{"all":1,"same":1},
    "10":{"all":1,"soft":1},"11":{"all":1,"deref":1},"12":{"all":1,"refers":1},"13":{"all":1,"clear":1},
    "14":{"all":1,"enqueue":1},"15":{"all":1,"enqueued":1},"16":{"all":1,"queue":1},"17":{"all":1,"poll":1},
    "18":{"all":1,"remove":1},"19":{"all":1,"cleaner":1},"20":{"all":1,"register":1},"21":{"all":1,"clean":1},
    "22":{"all":1,"prepare":1},"23":{"all":1,"opened":1},"24":{"all":1,"checkout":1},"25":{"all":1,"checkin":1},
    "26":{"all":1,"close":1},"27":{"all":1,"finish":1},"28":{"all":1,"bind":1},"29":{"all":1,"find":1},"30":{"all":1,"unbind":1},
    "31":{"all":1,"names":1},"32":{"all":1,"gc":1},"33":{"all":1,"stat":1},"34":{"all":1,"notes":1},"35":{"all":1,"faults":1},
    "36":{"all":1,"handover":1},"37":{"all":1,"takeup":1},"38":{"all":1,"begin":1},"39":{"all":1,"collect":1},
    "40":{"all":1,"abandon":1},"41":{"all":1,"array":1},"42":{"all":1,"weak":1},"43":{"all":1,"phantom":1},
    "44":{"all":1,"gc soft":1}}}

    what goes on from an image with objects and an open file, and enqueues a second reference at its end:
    4a4c5254 02 00000010 01 0010 0000000000000005 00000006
    00000000 03 00000001 00000001
    00000001 02 01 ffffffff ffffffff 02
    00000002 01 00
    00000003 02 01 00000002 00000000 00
    00000004 06 00000007 00000005
    00000005 05 00000004 0000000000000001 01 00000007 00
    01 00000004 01 00000000 02 00000002 03 00000003 04 00000004 ffffffff 00
    00000000 00000000 00000000 00000000 00000001 00000007 0000000000000001 01 00000000 00000000
    0000000000000002 0000000000000000 0000000000000000 0000000000000000 0000000000000001
    00 0e0003 0201 00
    -> json legal 1
    | {"entries":1,"objects":[
    {"after":0,"plain":1,"array":0,"soft":0,"weak":2,"phantom":0,"queue":1,"cleaner":0,"cleanable":1,"guard":1,"open":1},
    {"after":1,"plain":1,"array":0,"soft":0,"weak":2,"phantom":0,"queue":1,"cleaner":0,"cleanable":1,"guard":1,"open":1}],
    "collections":0,"each":[],
    "all":{"entry":0,"found":0,"freed":0,"soft_kept":0,"soft_cleared":0,"weak_cleared":0,"phantom_cleared":0,"pending":0},
    "longest_queue":2,"most_open":1,"actions":{"ok":0,"notfound":0,"denied":0,"other":0},
    "asks":{"0":{"all":1,"enqueue":1}}}
    -> table legal 1
    | Objects after so many entries, and files and sockets open..
    |
    | Collections 0
    | objects freed 0
    | soft references kept 0
    | soft references cleared 0
    | weak references cleared 0
    | phantom references cleared 0
    | set aside for queues and cleaner 0
    |
    | Longest queue 2
    | files and sockets open at most 1
    |
    | Actions that ended well 0
    | that failed: notfound 0
    | that failed: denied 0
    | that failed: other 0
    |
    | Asks all seat 0
    | enqueue 1 1

    more than a thousand collections:
    4a4c5254 02 00000010 01 0010 0000000000000000 00000000 00 00000000 00000000 00000000 00000000 00000000 00000000 00000000
    0000000000000001 0000000000000000 0000000000000000 0000000000000000 000000000000044e
    00 0000 00 00
    1100 * 00 200000 00 01 00000000 00000000
    00 0100 00 00
    -> json legal 1102
    | {"entries":1102,"objects":[
    {"after":0,"plain":0,"array":0,"soft":0,"weak":0,"phantom":0,"queue":0,"cleaner":0,"cleanable":0,"guard":0,"open":0},
    {"after":55,"plain":0,"array":0,"soft":0,"weak":0,"phantom":0,"queue":0,"cleaner":0,"cleanable":0,"guard":0,"open":0},..
    {"entry":1001,"found":0,"freed":0,"soft_kept":0,"soft_cleared":0,"weak_cleared":0,"phantom_cleared":0,"pending":0}],
    "all":{"entry":1101,"found":0,"freed":0,"soft_kept":0,"soft_cleared":0,"weak_cleared":0,"phantom_cleared":0,"pending":0},
    "longest_queue":0,"most_open":0,"actions":{"ok":0,"notfound":0,"denied":0,"other":0},
    "asks":{"0":{"all":1102,"join":1,"leave":1,"gc":1100}}}
"#;

/// Appends the bytes that words of hexadecimal digits tell of.
fn push_decoded(bytes: &mut Vec<u8>, digits: &str) -> Result<(), Fail> {
    for word in digits.split_whitespace() {
        for at in (0..word.len()).step_by(2) {
            bytes.push(u8::from_str_radix(word.get(at..at + 2).ok_or("no bytes")?, 16)?)?;
        }
    }
    Ok(())
}

/// Appends the bytes of a line, as often as it says.
fn push_line(bytes: &mut Vec<u8>, line: &str) -> Result<(), Fail> {
    let (times, digits) = line.split_once(" * ").unwrap_or(("1", line));
    let times: u32 = times.parse()?;
    for _ in 0..times {
        push_decoded(bytes, digits)?;
    }
    Ok(())
}

/// The bytes that lines tell of.
fn decoded(alloc: Global, text: &str) -> Result<Vec<u8>, Fail> {
    let mut bytes = Vec::new(alloc);
    for line in text.lines() {
        push_line(&mut bytes, line.trim())?;
    }
    Ok(bytes)
}

/// The figures of the history that these bytes spell.
fn judged(alloc: Global, bytes: &[u8]) -> Result<Judged, Fail> {
    let Ok(trace) = streamed_trace(alloc, bytes) else {
        return Err(Fail::from("no history"));
    };
    figures_of(alloc, trace).map_err(|_| Fail::from("no figures"))
}

/// What is told of figures, each with the verdict in front.
#[derive(Drop)]
struct Texts {
    json: String,
    table: String,
}

fn push_words(told: &mut String, line: &str) -> Result<(), AllocError> {
    for word in line.split_whitespace() {
        told.push_str(" ")?;
        told.push_str(word)?;
    }
    Ok(())
}

/// Adds lines, each behind a bar, and each of their words behind a space.
fn push_lines(told: &mut String, text: &str) -> Result<(), AllocError> {
    for line in text.lines() {
        told.push_str("|")?;
        push_words(told, line)?;
    }
    Ok(())
}

/// The lines of a text, as they are told, behind a verdict.
fn with_lines(verdict: String, text: &str) -> Result<String, AllocError> {
    let mut told = verdict;
    push_lines(&mut told, text)?;
    Ok(told)
}

/// What is told of the figures of these bytes.
fn told_of(alloc: Global, bytes: &[u8]) -> Result<Texts, Fail> {
    let Judged { verdict, figures } = judged(alloc, bytes)?;
    let json = json_of(alloc, &figures);
    let table = table_of(alloc, &figures);
    let entries = figures.entries;
    drop(figures);
    let json = with_lines(verdict_text(alloc, verdict, entries)?, json?.as_str())?;
    let table = with_lines(verdict_text(alloc, verdict, entries)?, table?.as_str())?;
    Ok(Texts { json, table })
}

/// Lines in one, without the spaces around them.
fn joined(alloc: Global, text: &str) -> Result<String, AllocError> {
    let mut joined = String::new(alloc);
    for line in text.lines() {
        joined.push_str(line.trim())?;
    }
    Ok(joined)
}

/// Whether a text is what is wanted, but for what that leaves out.
fn fits(text: &str, wanted: &str) -> bool {
    match wanted.split_once("..") {
        Some((front, end)) => text.starts_with(front) && text.ends_with(end),
        None => text == wanted,
    }
}

/// What is told in one of both forms is what is wanted.
fn compared(
    alloc: Global,
    title: &str,
    told: &Texts,
    form: &str,
    wanted: &str,
) -> Result<(), Fail> {
    let text = match form {
        "json" => told.json.as_str(),
        "table" => told.table.as_str(),
        _ => "no form",
    };
    if fits(text, joined(alloc, wanted)?.as_str()) {
        return Ok(());
    }
    Err(Fail::new(format_args!("{title} {text}")))
}

/// Each form in which the figures of a history are wanted.
fn played(alloc: Global, history: &str) -> Result<(), Fail> {
    let (bytes, figures) = history.split_once(" -> ").ok_or("no figures")?;
    let (title, bytes) = bytes.split_once(":\n").ok_or("no title")?;
    let bytes = decoded(alloc, bytes)?;
    let told = told_of(alloc, bytes.as_slice())?;
    for one in figures.split(" -> ") {
        let (form, wanted) = one.split_once(" ").ok_or("no form")?;
        compared(alloc, title.trim(), &told, form, wanted)?;
    }
    Ok(())
}

#[test]
fn a_history_has_these_figures(rt: HostRuntime) -> Result<(), Fail> {
    for history in HISTORIES.split("\n\n") {
        played(rt.alloc(), history)?;
    }
    Ok(())
}
