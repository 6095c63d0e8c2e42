//! Faults of the program: their statuses and their words.
use jlr_command_line::fault::ProgramFault;
use jlr_command_line::reason::{Place, Reason};
use std::alloc::{AllocError, Global};
use std::io::ErrorKind;
use std::test::Fail;

/// A fault ends the program with this status and is told in these words.
fn is_told(alloc: Global, fault: ProgramFault, status: u8, words: &str) -> Result<(), Fail> {
    if fault.status() != status {
        return Err(Fail::new(format!(in alloc; "{words}: another status")?));
    }
    if format!(in alloc; "{fault}")?.as_str() != words {
        return Err(Fail::new(format!(in alloc; "{words}: other words")?));
    }
    Ok(())
}

const MISSING: &str = "there is no such file or folder: check the path";

const DENIED: &str = "permission is denied: check the rights of the file and of its folder";

const TAKEN: &str = "it is in use: remove it if no server runs there, or name another path";

const NOBODY: &str = "nobody listens there: start a server";

/// What the system says, and the reason in words.
const REASONS: &str = "
    NotFound -> there is no such file or folder: check the path
    PermissionDenied -> permission is denied: check the rights of the file and of its folder
    AddrInUse -> it is in use: remove it if no server runs there, or name another path
    ConnectionRefused -> nobody listens there: start a server
    IsADirectory -> it is a folder: name a file
    NotADirectory -> a part of the path is no folder: check the path
    InvalidInput -> the name is empty or too long: a name has at most 255 bytes, a socket's path 107, and 103 with a mode
    InvalidFilename -> the name is empty or too long: a name has at most 255 bytes, a socket's path 107, and 103 with a mode
    StorageFull -> no room is left: make room, or name another place
    QuotaExceeded -> no room is left: make room, or name another place
    FileTooLarge -> no room is left: make room, or name another place
    ReadOnlyFilesystem -> its file system can only be read: name another place
    AlreadyExists -> all names from .refheap-new0 to .refheap-new99 beside it are taken: remove them
    TimedOut -> the system refused it
";

/// The reason for which the system says this.
fn reason_of(kind: &str) -> Option<Reason> {
    Some(Reason::of(match kind {
        "NotFound" => ErrorKind::NotFound,
        "PermissionDenied" => ErrorKind::PermissionDenied,
        "AddrInUse" => ErrorKind::AddrInUse,
        "ConnectionRefused" => ErrorKind::ConnectionRefused,
        "IsADirectory" => ErrorKind::IsADirectory,
        "NotADirectory" => ErrorKind::NotADirectory,
        "InvalidInput" => ErrorKind::InvalidInput,
        "InvalidFilename" => ErrorKind::InvalidFilename,
        "StorageFull" => ErrorKind::StorageFull,
        "QuotaExceeded" => ErrorKind::QuotaExceeded,
        "FileTooLarge" => ErrorKind::FileTooLarge,
        "ReadOnlyFilesystem" => ErrorKind::ReadOnlyFilesystem,
        "AlreadyExists" => ErrorKind::AlreadyExists,
        "TimedOut" => ErrorKind::TimedOut,
        _ => return None,
    }))
}

/// The first row of the reasons that is not as it says.
fn wrong_reason() -> Option<&'static str> {
    for row in REASONS.trim().lines() {
        let (kind, words) = row.trim().split_once(" -> ").unwrap_or((row, ""));
        if reason_of(kind).map(Reason::words) != Some(words) {
            return Some(row);
        }
    }
    None
}

/// A place at which the system says this.
fn place(alloc: Global, kind: ErrorKind) -> Result<Place, AllocError> {
    Place::new(alloc, "a/file", Reason::of(kind))
}

/// A fault of a file or a socket has this reason, ends the program with status 1, and is told in these words.
fn is_told_of(alloc: Global, fault: ProgramFault, reason: &str, words: &str) -> Result<(), Fail> {
    if fault.reason().map(Reason::words) != Some(reason) {
        return Err(Fail::new(format!(in alloc; "{words}: another reason")?));
    }
    is_told(alloc, fault, 1, words)
}

#[test]
fn faults_of_files_have_reasons(rt: HostRuntime) -> Result<(), Fail> {
    let alloc = rt.alloc();
    if let Some(row) = wrong_reason() {
        return Err(Fail::new(row));
    }
    let read = ProgramFault::CannotRead(place(alloc, ErrorKind::NotFound)?);
    is_told_of(alloc, read, MISSING, "cannot read a/file")?;
    let save = ProgramFault::CannotSave(place(alloc, ErrorKind::PermissionDenied)?);
    is_told_of(alloc, save, DENIED, "cannot save a/file")?;
    let listen = ProgramFault::CannotListen(place(alloc, ErrorKind::AddrInUse)?);
    is_told_of(alloc, listen, TAKEN, "cannot listen on a/file")?;
    let connect = ProgramFault::CannotConnect(place(alloc, ErrorKind::ConnectionRefused)?);
    is_told_of(alloc, connect, NOBODY, "cannot connect to a/file")
}

#[test]
fn each_fault_has_its_status_and_its_words(rt: HostRuntime) -> Result<(), Fail> {
    let alloc = rt.alloc();
    is_told(alloc, ProgramFault::Read, 1, "read failed")?;
    is_told(alloc, ProgramFault::Write, 1, "write failed")?;
    is_told(alloc, ProgramFault::Unfinished, 4, "unfinished line")?;
    is_told(alloc, ProgramFault::TooManyLines, 4, "too many lines")?;
    is_told(
        alloc,
        ProgramFault::NotEnded,
        1,
        "the server did not end in order",
    )?;
    is_told(alloc, ProgramFault::Illegal, 3, "illegal")?;
    is_told(alloc, ProgramFault::Disagree(7), 3, "seat 7 disagrees")?;
    is_told(alloc, ProgramFault::TraceTruncated, 4, "trace truncated")?;
    is_told(alloc, ProgramFault::BadMark, 4, "bad mark")?;
    is_told(alloc, ProgramFault::BadVersion, 4, "bad version")?;
    is_told(alloc, ProgramFault::BadEntry(7), 4, "bad entry 7")?;
    is_told(alloc, ProgramFault::NotJoined, 5, "not joined")?;
    is_told(alloc, ProgramFault::NoMemory(AllocError), 5, "no memory")
}
