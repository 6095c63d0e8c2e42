//! The commands of the program, with their options and what their help says.
//!
//! An option is a row of a table, from which `argument` makes what `clap` takes: a row costs the prover nothing, where
//! the calls that make one option cost it seconds.
use clap::{Arg, ArgAction, Command, value_parser};
use std::alloc::{AllocError, Global};

/// How many sessions share a heap where the command line gives no number.
pub const DEFAULT_SESSIONS: u32 = 4;

/// The cells of a heap where the command line gives no number.
pub const DEFAULT_CELLS: u32 = 1_024;

/// How many files and sockets may be open at once where the command line gives no number.
pub const DEFAULT_RESOURCES: u32 = 16;

/// The soft age of a heap where the command line gives none.
pub const DEFAULT_SOFT_AGE: u32 = 4;

/// How many entries the trace holds where the command line gives no number.
pub const DEFAULT_TRACE: u32 = 10_000;

/// How many cells a piece of marking visits at most where the command line gives no number.
pub const DEFAULT_BUDGET: u32 = 64;

/// The rights of a socket of control where the command line gives none.
pub const DEFAULT_CONTROL_MODE: u32 = 0o600;

/// An example of a `run` that can be pasted.
const RUN_EXAMPLE: &str =
    "Example:\n  printf 'new -\\nweak 1 0\\ndrop 1\\ngc\\nderef 2\\nbye\\n' | refheap run --cells 1024";

/// An example of a `serve` that can be pasted.
const SERVE_EXAMPLE: &str = "Example:\n  refheap serve --socket /tmp/heap --total 100 --sessions 8";

/// An example of a `stop` that can be pasted.
const STOP_EXAMPLE: &str =
    "Example:\n  refheap serve --socket /tmp/heap --control /tmp/heap.control --total 100 &\n  refheap stop /tmp/heap.control";

/// An example of an `audit` that can be pasted.
const AUDIT_EXAMPLE: &str = "Example:\n  refheap audit --explain history";

/// An example of a `stats` that can be pasted.
const STATS_EXAMPLE: &str = "Example:\n  refheap stats history";

/// An example of a `client` that can be pasted.
const CLIENT_EXAMPLE: &str =
    "On a terminal `help` says what may be typed. Example:\n  printf 'names\\nbye\\n' | refheap client /tmp/heap";

/// An example of a `commands` that can be pasted.
const COMMANDS_EXAMPLE: &str = "Example:\n  refheap commands weak";

/// What an option takes.
#[derive(Clone, Copy)]
enum Takes {
    /// A text, which may be left out.
    Text,
    /// A text.
    Needed,
    /// A number of this range, both bounds in it. Where it is left out, this text stands.
    Number((i64, i64), &'static str),
    /// A number of this range, both bounds in it.
    NeededNumber((i64, i64)),
    /// Nothing: the option is there or not.
    Nothing,
}

/// How an option is given.
#[derive(Clone, Copy, PartialEq, Eq)]
enum Form {
    /// By two hyphens and its name.
    Named,
    /// By its place alone.
    Placed,
}

/// An option of a command: its form, its name, what its help calls its value, what it takes, and what its help says.
type Row = (Form, &'static str, &'static str, Takes, &'static str);

/// The options of a heap, and of the history that is left.
const HEAP: [Row; 7] = [
    (
        Form::Named,
        "cells",
        "N",
        Takes::Number((16, 65_536), "1024"),
        "Number of cells of the heap, from 16 to 65536",
    ),
    (
        Form::Named,
        "resources",
        "N",
        Takes::Number((1, 256), "16"),
        "Number of files and sockets that may be open at once, from 1 to 256",
    ),
    (
        Form::Named,
        "soft-age",
        "N",
        Takes::Number((0, 1_000), "4"),
        "Number of collections for which a soft reference keeps its referent, from 0 to 1000",
    ),
    (
        Form::Named,
        "trace",
        "N",
        Takes::Number((64, 1_000_000), "10000"),
        "Number of entries after which the trace is cut, from 64 to 1000000",
    ),
    (
        Form::Named,
        "files",
        "DIR",
        Takes::Text,
        "Folder below which alone sessions open files and join sockets, by paths from there",
    ),
    (
        Form::Named,
        "no-files",
        "",
        Takes::Nothing,
        "Sessions open no file and join no socket: each try is denied",
    ),
    (
        Form::Named,
        "save",
        "FILE",
        Takes::Text,
        "Where the history is saved at the end",
    ),
];

/// The options of a server, beside those of its heap.
const SERVER: [Row; 7] = [
    (
        Form::Named,
        "socket",
        "PATH",
        Takes::Needed,
        "Where the Unix socket is made on which it listens",
    ),
    (
        Form::Named,
        "mode",
        "MODE",
        Takes::Text,
        "Rights of the socket's file, which say who may connect: 600, 660 or 666; else those of the umask",
    ),
    (
        Form::Named,
        "control",
        "PATH",
        Takes::Text,
        "Where a second Unix socket is made, at which `refheap stop` asks the server to end; it is there once the first listens",
    ),
    (
        Form::Named,
        "control-mode",
        "MODE",
        Takes::Text,
        "Rights of the second socket's file: 600, the usual, 660 or 666",
    ),
    (
        Form::Named,
        "total",
        "N",
        Takes::NeededNumber((1, 1_000_000)),
        "Number of clients after which it ends, from 1 to 1000000",
    ),
    (
        Form::Named,
        "sessions",
        "N",
        Takes::Number((1, 64), "4"),
        "Number of clients that are served at once, from 1 to 64",
    ),
    (
        Form::Named,
        "budget",
        "N",
        Takes::Number((1, 4_096), "64"),
        "Number of cells that the background marker visits at a time while all clients wait, from 1 to 4096",
    ),
];

/// The options of a `stop`.
const STOP: [Row; 1] = [(
    Form::Placed,
    "control",
    "PATH",
    Takes::Needed,
    "What the server was given as --control",
)];

/// That of an `audit` alone: whether it says why, or what came before.
const EXPLAIN: [Row; 1] = [(
    Form::Named,
    "explain",
    "",
    Takes::Nothing,
    "Says why a history is not legal, or how many entries came before it",
)];

/// The options of what is told of a saved history.
const HISTORY: [Row; 2] = [
    (Form::Named, "json", "", Takes::Nothing, "Writes JSON"),
    (
        Form::Placed,
        "file",
        "FILE",
        Takes::Needed,
        "A saved history",
    ),
];

/// The options of a `client`.
const CLIENT: [Row; 1] = [(
    Form::Placed,
    "path",
    "PATH",
    Takes::Needed,
    "The Unix socket of a server",
)];

/// The options of the manual.
const MANUAL: [Row; 1] = [(
    Form::Placed,
    "name",
    "NAME",
    Takes::Text,
    "A command of the line protocol",
)];

/// The program's command line.
pub fn command<'a>(alloc: Global) -> Result<Command<'a>, AllocError> {
    let program = Command::new(alloc, "refheap")
        .about(
            "Keeps objects until nobody can reach them, with soft, weak and phantom references, queues and a cleaner",
        )
        .subcommand_required(true);
    let program = with_subcommand(program, run_command(alloc))?;
    let program = with_subcommand(program, serve_command(alloc))?;
    let program = with_subcommand(program, stop_command(alloc))?;
    let program = with_subcommand(program, audit_command(alloc))?;
    let program = with_subcommand(program, stats_command(alloc))?;
    let program = with_subcommand(program, client_command(alloc))?;
    let program = with_subcommand(program, manual_command(alloc))?;
    with_subcommand(program, version_command(alloc))
}

/// A command with one more below it. Where that could not be made the command is dropped by a call, for the prover: no
/// return path then proves the drop of each of its parts.
fn with_subcommand<'a>(
    command: Command<'a>,
    below: Result<Command<'a>, AllocError>,
) -> Result<Command<'a>, AllocError> {
    match below {
        Ok(below) => command.subcommand(below),
        Err(error) => {
            drop(command);
            Err(error)
        }
    }
}

/// A command with the options of these rows.
fn with_options<'a>(
    alloc: Global,
    command: Command<'a>,
    rows: &[Row],
) -> Result<Command<'a>, AllocError> {
    let mut command = command;
    for row in rows {
        command = command.arg(argument(alloc, *row))?;
    }
    Ok(command)
}

/// The option of a row.
fn argument<'a>(alloc: Global, row: Row) -> Arg<'a> {
    let (form, name, value, takes, help) = row;
    let argument = Arg::new(alloc, name).help(help);
    let argument = match form {
        Form::Named => argument.long(name),
        Form::Placed => argument,
    };
    match takes {
        Takes::Text => argument.value_name(value),
        Takes::Needed => argument.value_name(value).required(true),
        Takes::Number(range, usual) => number(argument, value, range).default_value(usual),
        Takes::NeededNumber(range) => number(argument, value, range).required(true),
        Takes::Nothing => argument.action(ArgAction::SetTrue),
    }
}

/// The option with a number of this range, both bounds in it, for its value.
fn number<'a>(argument: Arg<'a>, value: &'static str, (least, most): (i64, i64)) -> Arg<'a> {
    argument
        .value_name(value)
        .value_parser(value_parser!(u32).range(least..=most))
}

/// A command with what its help says of it, in one sentence and behind its options.
fn named<'a>(
    alloc: Global,
    name: &'static str,
    about: &'static str,
    example: &'static str,
) -> Command<'a> {
    Command::new(alloc, name).about(about).after_help(example)
}

/// The command of a session.
fn run_command<'a>(alloc: Global) -> Result<Command<'a>, AllocError> {
    let about = "Carries out commands from standard input, a line each, and answers each by a line";
    with_options(alloc, named(alloc, "run", about, RUN_EXAMPLE), &HEAP)
}

/// The command of a server.
fn serve_command<'a>(alloc: Global) -> Result<Command<'a>, AllocError> {
    let about =
        "Lets clients share one heap over a Unix socket, and ends when so many have been served";
    let serve = with_options(alloc, named(alloc, "serve", about, SERVE_EXAMPLE), &SERVER)?;
    with_options(alloc, serve, &HEAP)
}

/// The command that asks a server to end.
fn stop_command<'a>(alloc: Global) -> Result<Command<'a>, AllocError> {
    let about =
        "Asks a server to end: it accepts no more, answers what was sent, saves, and is gone when this returns; asked twice, it cuts its clients off";
    with_options(alloc, named(alloc, "stop", about, STOP_EXAMPLE), &STOP)
}

/// The command of an audit.
fn audit_command<'a>(alloc: Global) -> Result<Command<'a>, AllocError> {
    let about =
        "Tells whether each step of a saved history was allowed, or which is the first that was not";
    let audit = with_options(alloc, named(alloc, "audit", about, AUDIT_EXAMPLE), &EXPLAIN)?;
    with_options(alloc, audit, &HISTORY)
}

/// The command of the figures of a history.
fn stats_command<'a>(alloc: Global) -> Result<Command<'a>, AllocError> {
    let about =
        "Tells the figures of a saved history: objects, collections, references, files, asks";
    with_options(alloc, named(alloc, "stats", about, STATS_EXAMPLE), &HISTORY)
}

/// The command of a session with a server.
fn client_command<'a>(alloc: Global) -> Result<Command<'a>, AllocError> {
    let about =
        "Sends commands from a terminal or from standard input to a server, and shows its replies";
    with_options(
        alloc,
        named(alloc, "client", about, CLIENT_EXAMPLE),
        &CLIENT,
    )
}

/// The command of the manual.
fn manual_command<'a>(alloc: Global) -> Result<Command<'a>, AllocError> {
    let about =
        "Lists the commands of the line protocol with their replies and refusals, or tells of one";
    with_options(
        alloc,
        named(alloc, "commands", about, COMMANDS_EXAMPLE),
        &MANUAL,
    )
}

/// The command of the versions.
fn version_command<'a>(alloc: Global) -> Result<Command<'a>, AllocError> {
    let version = Command::new(alloc, "version").about(
        "Tells the versions of the program and of trace files",
    );
    Ok(version)
}
