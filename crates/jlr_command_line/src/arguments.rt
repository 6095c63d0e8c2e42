//! What the words of the command line ask for.
ghost use Rattle.std.specs.Prelude.{◌≡◌, ◌≢◌, ◌⊎◌, IfOk, IfErr};
ghost use Rattle.clap.specs.Values.{kind_of};
ghost use Rattle.jlr_types.specs.Ranges.{first_fault};
ghost use Rattle.jlr_command_line.specs.Status.{status_of};

use crate::commands::{
    DEFAULT_BUDGET, DEFAULT_CELLS, DEFAULT_CONTROL_MODE, DEFAULT_RESOURCES, DEFAULT_SESSIONS,
    DEFAULT_SOFT_AGE, DEFAULT_TRACE, command,
};
use crate::fault::ProgramFault;
use clap::error::ErrorKind;
use clap::{ArgMatches, Command};
use jlr_types::{LimitFault, Limits};
use std::alloc::{AllocError, Global};
use std::{env, io};

/// What the program is called for.
#[derive(Clone, Copy)]
pub enum Order<'a> {
    Run(RunOrder<'a>),
    Serve(Service<'a>),
    Stop(StopOrder<'a>),
    Audit(AuditOrder<'a>),
    Stats(StatsOrder<'a>),
    /// A session with a server at this path.
    Client(&'a str),
    /// The manual: of one word, or of all.
    Commands(Option<&'a str>),
    Version,
}

/// What a `run` is to do: one session.
#[derive(Clone, Copy)]
pub struct RunOrder<'a> {
    pub limits: Limits,
    /// What the session may open.
    pub reach: Reach<'a>,
    /// Where the history is saved at the end, if it is.
    pub save: Option<&'a str>,
}

/// Which files and sockets the sessions may open.
#[derive(Clone, Copy, PartialEq, Eq, Debug)]
pub enum Reach<'a> {
    /// All that the program's user may open.
    Everything,
    /// Those below this folder.
    Below(&'a str),
    Nothing,
}

/// What a `serve` is to do.
#[derive(Clone, Copy)]
pub struct Service<'a> {
    /// Where it listens.
    pub socket: &'a str,
    /// The rights of that file, where they are not to be those of the umask.
    pub mode: Option<u32>,
    /// Where it listens for who asks it to end, if it does.
    pub control: Option<&'a str>,
    /// The rights of that file.
    pub control_mode: u32,
    /// What its clients may open.
    pub reach: Reach<'a>,
    /// How many clients it accepts, from 1 to 1,000,000.
    pub total: u32,
    pub limits: Limits,
    /// Where the history is saved at the end, if it is.
    pub save: Option<&'a str>,
}

/// What a `stop` is to do.
#[derive(Clone, Copy)]
pub struct StopOrder<'a> {
    /// Where the server listens for who asks it to end.
    pub control: &'a str,
}

/// What an `audit` is to do.
#[derive(Clone, Copy)]
pub struct AuditOrder<'a> {
    pub file: &'a str,
    /// Whether it says why a history is not legal.
    pub explain: bool,
    /// Whether the verdict is written as JSON.
    pub json: bool,
}

/// What a `stats` is to do.
#[derive(Clone, Copy)]
pub struct StatsOrder<'a> {
    pub file: &'a str,
    /// Whether it writes JSON, and no table.
    pub json: bool,
}

/// The words that the program was called with, its own name first. A word that is no text is a bad
/// command line.
pub fn words(rt: &HostRuntime) -> Result<Vec<String>, ProgramFault>
    ensures { IfErr result (λ fault. (status_of fault ≡ 2) ⊎ (status_of fault ≡ 5)) }
{
    match env::args(rt) {
        Ok(args) => args
            .collect(rt.alloc())
            .map_err(|_| ProgramFault::NoMemory(AllocError)),
        Err(error) if error.kind() == io::ErrorKind::OutOfMemory => {
            Err(ProgramFault::NoMemory(AllocError))
        }
        Err(_) => {
            let message = "a word of the command line is not UTF-8 text";
            Err(refused(rt.alloc(), message))
        }
    }
}

/// What the words ask for, the program's own name first among them. `--version` alone asks for what `version` does.
///
/// # Errors
/// A bad command line or a call for help, with the text that is said of it, or that memory ran out.
pub fn order_of<'a>(alloc: Global, words: &'a [String]) -> Result<Order<'a>, ProgramFault>
    ensures { IfErr result (λ fault. (status_of fault ≡ 2) ⊎ (status_of fault ≡ 5)) }
{
    if asks_version(words) {
        return Ok(Order::Version);
    }
    let command = command(alloc).map_err(ProgramFault::NoMemory)?;
    let matches = parsed(command, words)?;
    if let Some(serve) = matches.subcommand_matches("serve") {
        return Ok(Order::Serve(service_of(alloc, serve)?));
    }
    if let Some(stop) = matches.subcommand_matches("stop") {
        return Ok(Order::Stop(stop_of(alloc, stop)?));
    }
    if let Some(audit) = matches.subcommand_matches("audit") {
        return Ok(Order::Audit(audit_of(alloc, audit)?));
    }
    if let Some(order) = telling_of(alloc, &matches)? {
        return Ok(order);
    }
    let run = run_of(alloc, matches.subcommand_matches("run"))?;
    Ok(Order::Run(run))
}

/// Whether the words are the program's name and `--version`.
fn asks_version(words: &[String]) -> bool {
    words.len() == 2 && words[1].as_str() == "--version"
}

/// What is asked for beside sessions, servers and audits.
fn telling_of<'a>(
    alloc: Global,
    matches: &ArgMatches<'a>,
) -> Result<Option<Order<'a>>, ProgramFault>
    ensures { IfErr result (λ fault. (status_of fault ≡ 2) ⊎ (status_of fault ≡ 5)) }
{
    if let Some(stats) = matches.subcommand_matches("stats") {
        return Ok(Some(Order::Stats(stats_of(alloc, stats)?)));
    }
    if let Some(client) = matches.subcommand_matches("client") {
        let Some(path) = client.get_str("path") else {
            return Err(refused(alloc, "a socket has to be named"));
        };
        return Ok(Some(Order::Client(path)));
    }
    if let Some(commands) = matches.subcommand_matches("commands") {
        return Ok(Some(Order::Commands(commands.get_str("name"))));
    }
    if matches.subcommand_matches("version").is_some() {
        return Ok(Some(Order::Version));
    }
    Ok(None)
}

/// What the words match.
fn parsed<'a>(command: Command<'a>, words: &'a [String]) -> Result<ArgMatches<'a>, ProgramFault>
    ensures { IfErr result (λ fault. (status_of fault ≡ 2) ⊎ (status_of fault ≡ 5)) }
{
    match command.try_get_matches_from(words) {
        Ok(matches) => Ok(matches),
        Err(error) => Err(told(error)),
    }
}

/// What a `serve` asks for.
fn service_of<'a>(alloc: Global, serve: &ArgMatches<'a>) -> Result<Service<'a>, ProgramFault>
    ensures { IfErr result (λ fault. (status_of fault ≡ 2) ⊎ (status_of fault ≡ 5)) }
{
    let Some(socket) = serve.get_str("socket") else {
        return Err(refused(alloc, "a socket has to be named"));
    };
    for option in ["sessions", "total", "budget"] {
        spelled_plainly(alloc, Some(serve), option)?;
    }
    let asked = numbers_asked(alloc, Some(serve))?;
    let sessions = number(Some(serve), "sessions").unwrap_or(DEFAULT_SESSIONS);
    let budget = number(Some(serve), "budget").unwrap_or(DEFAULT_BUDGET);
    let limits = checked(alloc, asked, sessions, budget)?;
    let total = number(Some(serve), "total").unwrap_or(1);
    let mode = mode_of(alloc, serve, "mode")?;
    let control_mode = mode_of(alloc, serve, "control-mode")?.unwrap_or(DEFAULT_CONTROL_MODE);
    Ok(Service {
        socket,
        mode,
        control: serve.get_str("control"),
        control_mode,
        reach: reach_of(Some(serve)),
        total,
        limits,
        save: serve.get_str("save"),
    })
}

/// The rights that an option gives a file, if it is there.
fn mode_of(alloc: Global, serve: &ArgMatches<'_>, option: &str) -> Result<Option<u32>, ProgramFault>
    ensures { IfErr result (λ fault. (status_of fault ≡ 2) ⊎ (status_of fault ≡ 5)) }
{
    match serve.get_str(option) {
        None => Ok(None),
        Some("600") => Ok(Some(0o600)),
        Some("660") => Ok(Some(0o660)),
        Some("666") => Ok(Some(0o666)),
        Some(_) => Err(refused(alloc, "the rights of a socket are 600, 660 or 666")),
    }
}

/// What sessions may open.
fn reach_of<'a>(given: Option<&ArgMatches<'a>>) -> Reach<'a> {
    match given {
        Some(given) if given.get_flag("no-files") => Reach::Nothing,
        Some(given) => match given.get_str("files") {
            Some(folder) => Reach::Below(folder),
            None => Reach::Everything,
        },
        None => Reach::Everything,
    }
}

/// What a `stop` asks for.
fn stop_of<'a>(alloc: Global, stop: &ArgMatches<'a>) -> Result<StopOrder<'a>, ProgramFault>
    ensures { IfErr result (λ fault. (status_of fault ≡ 2) ⊎ (status_of fault ≡ 5)) }
{
    let Some(control) = stop.get_str("control") else {
        return Err(refused(alloc, "a socket of control has to be named"));
    };
    Ok(StopOrder { control })
}

/// What an `audit` asks for.
fn audit_of<'a>(alloc: Global, audit: &ArgMatches<'a>) -> Result<AuditOrder<'a>, ProgramFault>
    ensures { IfErr result (λ fault. (status_of fault ≡ 2) ⊎ (status_of fault ≡ 5)) }
{
    let Some(file) = audit.get_str("file") else {
        return Err(refused(alloc, "a file has to be named"));
    };
    let explain = audit.get_flag("explain");
    let json = audit.get_flag("json");
    Ok(AuditOrder {
        file,
        explain,
        json,
    })
}

/// What a `stats` asks for.
fn stats_of<'a>(alloc: Global, stats: &ArgMatches<'a>) -> Result<StatsOrder<'a>, ProgramFault>
    ensures { IfErr result (λ fault. (status_of fault ≡ 2) ⊎ (status_of fault ≡ 5)) }
{
    let Some(file) = stats.get_str("file") else {
        return Err(refused(alloc, "a file has to be named"));
    };
    let json = stats.get_flag("json");
    Ok(StatsOrder { file, json })
}

/// That a word names no command of the line protocol, or that memory for saying so ran out.
pub fn no_command(alloc: Global) -> ProgramFault
    ensures { (status_of result ≡ 2) ⊎ (status_of result ≡ 5) }
{
    refused(alloc, "there is no such command of the line protocol")
}

/// What a `run` asks for: the limits that its words give, and the rest as it is usually.
fn run_of<'a>(alloc: Global, run: Option<&ArgMatches<'a>>) -> Result<RunOrder<'a>, ProgramFault>
    ensures usual { IfOk result (λ order. (order.limits.sessions ≡ 1) × (order.limits.budget ≡ 64)) }
    ensures refused { IfErr result (λ fault. (status_of fault ≡ 2) ⊎ (status_of fault ≡ 5)) }
{
    let asked = numbers_asked(alloc, run)?;
    let limits = checked(alloc, asked, 1, DEFAULT_BUDGET)?;
    let save = run.and_then(|run| run.get_str("save"));
    Ok(RunOrder {
        limits,
        reach: reach_of(run),
        save,
    })
}

/// The numbers that the words of a `run` or a `serve` ask for.
#[derive(Clone, Copy)]
struct Numbers {
    /// The number of cells, from 16 to 65,536.
    cells: u32,
    /// The number of files and sockets that may be open at once, from 1 to 256.
    resources: u32,
    /// For how many collections a soft reference keeps its referent, from 0 to 1,000.
    soft_age: u32,
    /// How many entries the trace holds before it is cut, from 64 to 1,000,000.
    trace: u32,
}

/// The numbers that a `run` or a `serve` asks for, each as it is usually where it asks for none.
fn numbers_asked(alloc: Global, given: Option<&ArgMatches<'_>>) -> Result<Numbers, ProgramFault>
    ensures { IfErr result (λ fault. (status_of fault ≡ 2) ⊎ (status_of fault ≡ 5)) }
{
    for option in ["cells", "resources", "soft-age", "trace"] {
        spelled_plainly(alloc, given, option)?;
    }
    Ok(Numbers {
        cells: number(given, "cells").unwrap_or(DEFAULT_CELLS),
        resources: number(given, "resources").unwrap_or(DEFAULT_RESOURCES),
        soft_age: number(given, "soft-age").unwrap_or(DEFAULT_SOFT_AGE),
        trace: number(given, "trace").unwrap_or(DEFAULT_TRACE),
    })
}

/// The number that is given for an option, if there is one.
fn number(given: Option<&ArgMatches<'_>>, option: &str) -> Option<u32> {
    given.and_then(|given| given.get_one::<u32>(option))
}

/// That the number which is given for an option, if there is one, has its one spelling.
fn spelled_plainly(
    alloc: Global,
    given: Option<&ArgMatches<'_>>,
    option: &str,
) -> Result<(), ProgramFault>
    ensures { IfErr result (λ fault. (status_of fault ≡ 2) ⊎ (status_of fault ≡ 5)) }
{
    if is_spelled_plainly(given, option) {
        return Ok(());
    }
    Err(refused(alloc, "a number has no sign and no leading zero"))
}

/// Whether the number that is given for an option, if there is one, has its one spelling: no sign and no leading zero.
fn is_spelled_plainly(given: Option<&ArgMatches<'_>>, option: &str) -> bool {
    match given.and_then(|given| given.get_str(option)) {
        Some(text) => text == "0" || !(text.starts_with('0') || text.starts_with('+')),
        None => true,
    }
}

/// These limits, where all lie in their ranges.
fn checked(
    alloc: Global,
    asked: Numbers,
    sessions: u32,
    budget: u32,
) -> Result<Limits, ProgramFault>
    ensures given { IfOk result (λ limits. (limits.sessions ≡ sessions) × (limits.budget ≡ budget)) }
    ensures refused { IfErr result (λ fault. (status_of fault ≡ 2) ⊎ (status_of fault ≡ 5)) }
{
    match limits_with(asked, sessions, budget) {
        Ok(limits) => Ok(limits),
        Err(fault) => {
            let message = match fault {
                LimitFault::Sessions => "the number of sessions is from 1 to 64",
                LimitFault::Resources => "the number of resources is from 1 to 256",
                LimitFault::SoftAge => "the soft age is from 0 to 1000",
                LimitFault::Trace => "the length of the trace is from 64 to 1000000",
                LimitFault::Budget => "the budget is from 1 to 4096",
                LimitFault::Cells => "the number of cells is from 16 to 65536",
            };
            Err(refused(alloc, message))
        }
    }
}

/// The limits of a heap of these numbers, so many sessions and this budget of a piece of marking.
fn limits_with(asked: Numbers, sessions: u32, budget: u32) -> Result<Limits, LimitFault>
    ensures limits { IfOk result (λ limits. (limits.cells ≡ asked.cells) × (limits.sessions ≡ sessions)
        × (limits.resources ≡ asked.resources) × (limits.soft_age ≡ asked.soft_age) × (limits.trace ≡ asked.trace)
        × (limits.budget ≡ budget)) }
    ensures fault { IfErr result
        (λ fault. first_fault asked.cells sessions asked.resources asked.soft_age asked.trace budget ≡ Some fault) }
{
    let Numbers {
        cells,
        resources,
        soft_age,
        trace,
    } = asked;
    Limits::checked(cells, sessions, resources, soft_age, trace, budget)
}

/// A bad command line, with what is wrong with it, or that memory for saying so ran out.
fn refused(alloc: Global, message: &str) -> ProgramFault
    ensures { (status_of result ≡ 2) ⊎ (status_of result ≡ 5) }
{
    match refusal(alloc, message) {
        Ok(error) => told(error),
        Err(fault) => ProgramFault::NoMemory(fault),
    }
}

/// What `clap` says of a bad command line.
fn refusal(alloc: Global, message: &str) -> Result<clap::Error, AllocError> {
    command(alloc)?.error(ErrorKind::InvalidValue, message)
}

/// An error of the command line, or the lack of memory that it stands for.
fn told(error: clap::Error) -> ProgramFault
    ensures memory { kind_of error ≡ ErrorKind.OutOfMemory → status_of result ≡ 5 }
    ensures words { kind_of error ≢ ErrorKind.OutOfMemory → status_of result ≡ 2 }
    ensures either { (status_of result ≡ 2) ⊎ (status_of result ≡ 5) }
{
    if error.kind() == ErrorKind::OutOfMemory {
        return ProgramFault::NoMemory(AllocError);
    }
    ProgramFault::CommandLine(error)
}
