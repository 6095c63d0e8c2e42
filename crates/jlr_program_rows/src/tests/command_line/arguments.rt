//! Command lines: each row is a line, an arrow, and what it asks for.
use jlr_command_line::arguments::{
    AuditOrder, Order, Reach, RunOrder, Service, StatsOrder, order_of,
};
use jlr_command_line::fault::ProgramFault;
use jlr_types::Limits;
use std::alloc::{AllocError, Global};
use std::test::Fail;

/// What a command line asks for, whose words are parted by spaces; or the status of its fault.
fn asked(alloc: Global, line: &str) -> Result<String, Fail> {
    let words = words_of(alloc, line)?;
    match order_of(alloc, words.as_slice()) {
        Ok(order) => told(alloc, order),
        Err(fault) => refused(alloc, &fault),
    }
}

/// The words of a line.
fn words_of(alloc: Global, line: &str) -> Result<Vec<String>, AllocError> {
    let mut words = Vec::new(alloc);
    for word in line.split(' ') {
        words.push(owned(alloc, word)?)?;
    }
    Ok(words)
}

fn owned(alloc: Global, word: &str) -> Result<String, AllocError> {
    let mut text = String::new(alloc);
    text.push_str(word)?;
    Ok(text)
}

fn told(alloc: Global, order: Order<'_>) -> Result<String, Fail> {
    match order {
        Order::Run(order) => told_run(alloc, order),
        Order::Serve(service) => told_service(alloc, service),
        Order::Stop(order) => Ok(format!(in alloc; "stop at {}", order.control)?),
        Order::Audit(order) => told_audit(alloc, order),
        Order::Stats(order) => told_stats(alloc, order),
        Order::Client(path) => Ok(format!(in alloc; "client of {path}")?),
        Order::Commands(Some(name)) => Ok(format!(in alloc; "the command {name}")?),
        Order::Commands(None) => Ok(owned(alloc, "all commands")?),
        Order::Version => Ok(owned(alloc, "version")?),
    }
}

/// Of a session the cells, the files and sockets, the soft age and the length of the trace, what it may open, and where
/// its history is saved.
fn told_run(alloc: Global, order: RunOrder<'_>) -> Result<String, Fail> {
    let heap = numbers(alloc, &order.limits)?;
    let reach = reach(alloc, order.reach)?;
    let end = ending(alloc, order.save)?;
    Ok(format!(in alloc; "{heap}{reach}{end}")?)
}

/// What a server serves, of its heap what is told of a session's, and where it is asked to end.
fn told_service(alloc: Global, service: Service<'_>) -> Result<String, Fail> {
    let (total, socket, mode) = (service.total, service.socket, mode_of(service.mode));
    let (sessions, budget) = (service.limits.sessions, service.limits.budget);
    let heap = numbers(alloc, &service.limits)?;
    let reach = reach(alloc, service.reach)?;
    let control = control(alloc, service.control, service.control_mode)?;
    let end = ending(alloc, service.save)?;
    Ok(format!(in alloc;
        "serve {total} on {socket}{mode}, {sessions} at once, {budget} a piece, {heap}{reach}{control}{end}"
    )?)
}

/// What may be opened, where that is not all.
fn reach(alloc: Global, reach: Reach<'_>) -> Result<String, Fail> {
    match reach {
        Reach::Everything => Ok(String::new(alloc)),
        Reach::Below(folder) => Ok(format!(in alloc; ", below {folder}")?),
        Reach::Nothing => Ok(owned(alloc, ", no files")?),
    }
}

/// The rights of the socket, if they are given.
fn mode_of(mode: Option<u32>) -> &'static str {
    match mode {
        None => "",
        Some(0o600) => " by 600",
        Some(0o660) => " by 660",
        Some(0o666) => " by 666",
        Some(_) => " by others",
    }
}

/// Where the end is asked for, and by which rights, if it can be.
fn control(alloc: Global, control: Option<&str>, mode: u32) -> Result<String, Fail> {
    let mode = mode_of(Some(mode));
    match control {
        Some(control) => Ok(format!(in alloc; ", asked at {control}{mode}")?),
        None => Ok(String::new(alloc)),
    }
}

/// What is audited.
fn told_audit(alloc: Global, order: AuditOrder<'_>) -> Result<String, Fail> {
    let file = order.file;
    let how = if order.explain { ", explained" } else { "" };
    let form = form_of(order.json);
    Ok(format!(in alloc; "audit of {file}{how}{form}")?)
}

/// Of what figures are told.
fn told_stats(alloc: Global, order: StatsOrder<'_>) -> Result<String, Fail> {
    let file = order.file;
    let form = form_of(order.json);
    Ok(format!(in alloc; "figures of {file}{form}")?)
}

fn form_of(json: bool) -> &'static str {
    if json { ", as JSON" } else { "" }
}

fn refused(alloc: Global, fault: &ProgramFault) -> Result<String, Fail> {
    let status = fault.status();
    Ok(format!(in alloc; "status {status}")?)
}

/// Where a history is saved, if it is.
fn ending(alloc: Global, save: Option<&str>) -> Result<String, Fail> {
    match save {
        Some(file) => Ok(format!(in alloc; ", saved to {file}")?),
        None => Ok(String::new(alloc)),
    }
}

/// The limits of a heap that a command line can set for one session.
fn numbers(alloc: Global, limits: &Limits) -> Result<String, Fail> {
    let (cells, resources) = (limits.cells, limits.resources);
    let (age, trace) = (limits.soft_age, limits.trace);
    Ok(format!(in alloc; "{cells} {resources} {age} {trace}")?)
}

/// Each row is a command line, an arrow, and what it asks for.
fn play(alloc: Global, label: &str, rows: &str) -> Result<(), Fail> {
    for row in rows.lines() {
        let row = row.trim();
        if row.is_empty() {
            continue;
        }
        let (line, wanted) = row.split_once(" -> ").ok_or("no row")?;
        let got = asked(alloc, line)?;
        if got.as_str() != wanted {
            return Err(Fail::new(format!(in alloc; "{label}, at {row}: {got}")?));
        }
    }
    Ok(())
}

// Each option is its own limit.
const COMMANDS: &str = "
    refheap run -> 1024 16 4 10000
    refheap run --cells 17 --resources 18 --soft-age 19 --trace 65 -> 17 18 19 65
    refheap run --trace 64 --soft-age 0 --resources 1 --cells 16 -> 16 1 0 64
    refheap run --cells 65536 --resources 256 --soft-age 1000 --trace 1000000 -> 65536 256 1000 1000000
    refheap run --save history -> 1024 16 4 10000, saved to history
    refheap run --save history --cells 16 -> 16 16 4 10000, saved to history
    refheap serve --socket s --total 7 --save history -> serve 7 on s, 4 at once, 64 a piece, 1024 16 4 10000, saved to history
    refheap stop /tmp/control -> stop at /tmp/control
    refheap audit history -> audit of history
    refheap audit --explain history -> audit of history, explained
    refheap audit history --explain -> audit of history, explained
    refheap audit --json history -> audit of history, as JSON
    refheap audit --explain --json history -> audit of history, explained, as JSON
    refheap stats history -> figures of history
    refheap stats --json history -> figures of history, as JSON
    refheap client /tmp/heap -> client of /tmp/heap
    refheap commands -> all commands
    refheap commands weak -> the command weak
    refheap version -> version
    refheap serve --socket s --total 7 -> serve 7 on s, 4 at once, 64 a piece, 1024 16 4 10000
    refheap serve --total 1000000 --socket /tmp/s --sessions 64 --cells 16 -> serve 1000000 on /tmp/s, 64 at once, 64 a piece, 16 16 4 10000
    refheap serve --trace 64 --soft-age 0 --resources 1 --cells 16 --sessions 1 --total 1 --socket s -> serve 1 on s, 1 at once, 64 a piece, 16 1 0 64
    refheap serve --socket s --total 1 --budget 1 -> serve 1 on s, 4 at once, 1 a piece, 1024 16 4 10000
    refheap serve --budget 4096 --socket s --total 1 -> serve 1 on s, 4 at once, 4096 a piece, 1024 16 4 10000
";

// What may be opened: where nothing may be, no folder is looked at.
const REACHES: &str = "
    refheap run --files d -> 1024 16 4 10000, below d
    refheap run --no-files -> 1024 16 4 10000, no files
    refheap run --files d --no-files -> 1024 16 4 10000, no files
    refheap run --no-files --files d -> 1024 16 4 10000, no files
    refheap run --files d --save history --cells 16 -> 16 16 4 10000, below d, saved to history
    refheap serve --socket s --total 1 --files d -> serve 1 on s, 4 at once, 64 a piece, 1024 16 4 10000, below d
    refheap serve --socket s --total 1 --no-files -> serve 1 on s, 4 at once, 64 a piece, 1024 16 4 10000, no files
    refheap serve --no-files --files d --socket s --total 1 -> serve 1 on s, 4 at once, 64 a piece, 1024 16 4 10000, no files
    refheap serve --files d --socket s --no-files --total 1 -> serve 1 on s, 4 at once, 64 a piece, 1024 16 4 10000, no files
";

// Two sockets, each with rights of its own.
const SOCKETS: &str = "
    refheap serve --socket s --total 1 --mode 600 -> serve 1 on s by 600, 4 at once, 64 a piece, 1024 16 4 10000
    refheap serve --socket s --total 1 --mode 660 -> serve 1 on s by 660, 4 at once, 64 a piece, 1024 16 4 10000
    refheap serve --socket s --total 1 --mode 666 -> serve 1 on s by 666, 4 at once, 64 a piece, 1024 16 4 10000
    refheap serve --socket s --total 1 --control c -> serve 1 on s, 4 at once, 64 a piece, 1024 16 4 10000, asked at c by 600
    refheap serve --socket s --total 1 --control c --control-mode 660 -> serve 1 on s, 4 at once, 64 a piece, 1024 16 4 10000, asked at c by 660
    refheap serve --control-mode 666 --control c --mode 600 --socket s --total 1 -> serve 1 on s by 600, 4 at once, 64 a piece, 1024 16 4 10000, asked at c by 666
    refheap serve --socket s --total 1 --mode 660 --control c --save h --no-files -> serve 1 on s by 660, 4 at once, 64 a piece, 1024 16 4 10000, no files, asked at c by 600, saved to h
";

// A bad command line has status 2.
const WRONG: &str = "
    refheap -> status 2
    refheap walk -> status 2
    refheap run --save -> status 2
    refheap run --save a --save b -> status 2
    refheap stop -> status 2
    refheap stop a b -> status 2
    refheap audit -> status 2
    refheap audit a b -> status 2
    refheap audit --json -> status 2
    refheap audit --json --json a -> status 2
    refheap stats -> status 2
    refheap stats a b -> status 2
    refheap stats --explain a -> status 2
    refheap client -> status 2
    refheap client a b -> status 2
    refheap commands a b -> status 2
    refheap version a -> status 2
    refheap stats --help -> status 2
    refheap client --help -> status 2
    refheap commands --help -> status 2
    refheap version --help -> status 2
    refheap --help -> status 2
    refheap run --help -> status 2
    refheap serve --help -> status 2
    refheap audit --help -> status 2
    refheap run --cells -> status 2
    refheap run --cells 15 -> status 2
    refheap run --cells 65537 -> status 2
    refheap run --resources 0 -> status 2
    refheap run --resources 257 -> status 2
    refheap run --soft-age 1001 -> status 2
    refheap run --soft-age x -> status 2
    refheap run --cells +16 -> status 2
    refheap run --cells 016 -> status 2
    refheap run --resources 016 -> status 2
    refheap run --soft-age 00 -> status 2
    refheap run --trace 63 -> status 2
    refheap run --trace 1000001 -> status 2
    refheap run --trace 064 -> status 2
    refheap run --trace -> status 2
    refheap serve -> status 2
    refheap serve --socket s -> status 2
    refheap serve --total 1 -> status 2
    refheap serve --socket s --total 0 -> status 2
    refheap serve --socket s --total 1000001 -> status 2
    refheap serve --socket s --total 01 -> status 2
    refheap serve --socket s --total +1 -> status 2
    refheap serve --socket s --total 1 --sessions 04 -> status 2
    refheap serve --socket s --total 1 --trace 064 -> status 2
    refheap serve --socket s --total 1 --sessions 0 -> status 2
    refheap serve --socket s --total 1 --sessions 65 -> status 2
    refheap serve --socket s --total 1 --cells 15 -> status 2
    refheap serve --socket s --total 1 --budget 0 -> status 2
    refheap serve --socket s --total 1 --budget 4097 -> status 2
    refheap serve --socket s --total 1 --budget 064 -> status 2
    refheap serve --socket s --total 1 --budget +1 -> status 2
    refheap serve --socket s --total 1 --budget -> status 2
    refheap run --budget 64 -> status 2
    refheap run --files -> status 2
    refheap run --files a --files b -> status 2
    refheap run --no-files d -> status 2
    refheap run --mode 600 -> status 2
    refheap run --control c -> status 2
    refheap serve --socket s --total 1 --mode -> status 2
    refheap serve --socket s --total 1 --mode 644 -> status 2
    refheap serve --socket s --total 1 --mode 0600 -> status 2
    refheap serve --socket s --total 1 --control -> status 2
    refheap serve --socket s --total 1 --control c --control-mode 777 -> status 2
";

#[test]
fn command_lines(rt: HostRuntime) -> Result<(), Fail> {
    play(rt.alloc(), "each option is its own limit", COMMANDS)?;
    play(
        rt.alloc(),
        "no files are no files, whatever the folder",
        REACHES,
    )?;
    play(rt.alloc(), "each socket has its own rights", SOCKETS)?;
    play(rt.alloc(), "a bad command line has status 2", WRONG)
}
