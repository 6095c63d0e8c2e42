//! The manual of the line protocol and the versions: `refheap commands`, `refheap version`.
use jlr_client::manual::table::{pages, table};
use jlr_command_line::arguments::no_command;
use jlr_command_line::fault::ProgramFault;
use std::alloc::Global;
use std::io::Write;

/// The versions of the program, and of the trace files that it reads; it writes the last of these.
const VERSIONS: &str = "refheap 0.9.0, trace files 1 and 2\n";

fn tell(writer: &mut impl Write, text: &str) -> Result<(), ProgramFault> {
    if writer.write_all(text.as_bytes()).is_err() || writer.flush().is_err() {
        return Err(ProgramFault::Write);
    }
    Ok(())
}

/// Writes the table of the commands, or what there is to tell of one.
///
/// # Errors
/// `CommandLine` where there is no such command; `Write`, `NoMemory`.
pub fn commands(
    alloc: Global,
    name: Option<&str>,
    writer: &mut impl Write,
) -> Result<(), ProgramFault> {
    let Some(name) = name else {
        return tell(writer, table(alloc)?.as_str());
    };
    match pages(alloc, name.as_bytes())? {
        Some(text) => tell(writer, text.as_str()),
        None => Err(no_command(alloc)),
    }
}

/// Writes the versions.
///
/// # Errors
/// `Write`.
pub fn version(writer: &mut impl Write) -> Result<(), ProgramFault> {
    tell(writer, VERSIONS)
}
