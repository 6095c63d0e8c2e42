//! The file to which bytes are saved: what stands at its path, and how the bytes come there.
use std::alloc::{AllocError, Global};
use std::fs::{self, File, Metadata, OpenOptions, Permissions};
use std::io::{self, ErrorKind, Write};
use std::os::unix::fs::{FileTypeExt, MetadataExt, OpenOptionsExt};

/// How many links lead on at most, as the system has it.
const MOST_LINKS: u32 = 40;

/// How many names are tried for a new file.
const MOST_NAMES: u32 = 100;

/// The links of the system's own that lead to what the process has open.
const OPEN_FILES: &str = "/proc/self/fd";

/// What stands at a path, and so how it is saved to.
#[derive(Drop)]
enum Found {
    /// Nothing. A new file is put there.
    Nothing,
    /// A file of these rights. A new one with the same is put in its place.
    File(Permissions),
    /// A file that somebody has open, by the name of its descriptor. What it holds stays, and the bytes come behind.
    OpenFile,
    /// A named or an unnamed pipe.
    Pipe,
    /// A terminal or another device.
    Device,
}

/// Puts bytes at a path: whole, or what stood there stays.
pub(crate) fn put(rt: &HostRuntime, path: &str, bytes: &[u8]) -> io::Result<()> {
    let (place, found) = found_at(rt, path)?;
    let place = place.as_str();
    match found {
        Found::Nothing => put_beside(rt, place, None, bytes),
        Found::File(rights) => put_beside(rt, place, Some(rights), bytes),
        Found::OpenFile => write_whole(open_end(rt, place)?, bytes),
        Found::Pipe => open_pipe(rt, place)?.write_all(bytes),
        Found::Device => open_device(rt, place)?.write_all(bytes),
    }
}

/// Tries whether bytes can be put at a path, and leaves there what it found. A pipe and a device are not tried.
pub(crate) fn try_put(rt: &HostRuntime, path: &str) -> io::Result<()> {
    let (place, found) = found_at(rt, path)?;
    let place = place.as_str();
    match found {
        Found::Nothing => try_beside(rt, place, None),
        Found::File(rights) => try_beside(rt, place, Some(rights)),
        Found::OpenFile => {
            drop(open_end(rt, place)?);
            Ok(())
        }
        Found::Pipe | Found::Device => Ok(()),
    }
}

// ---- What stands at a path

/// What stands at a path, and where: links are followed one by one up to what they lead to, so that no part of the path
/// has to be spelled that was not given, and only where the system would follow them. A link of the system's own is not
/// followed, since what it says is no path.
fn found_at(rt: &HostRuntime, path: &str) -> io::Result<(String, Found)> {
    let mut place = String::from_str(rt.alloc(), path)?;
    for links in 0..=MOST_LINKS {
        let there = match fs::symlink_metadata(rt, place.as_str()) {
            Ok(there) => there,
            Err(error) if links == 0 && is_free(path, &error) => return Ok((place, Found::Nothing)),
            Err(error) => return Err(error),
        };
        if !there.is_symlink() {
            let rights = there.permissions();
            return Ok((place, found_in(&there, Found::File(rights))?));
        }
        let behind = fs::metadata(rt, place.as_str())?;
        if is_systems_own(rt, &there)? {
            return Ok((place, found_in(&behind, Found::OpenFile)?));
        }
        let text = fs::read_link(rt, place.as_str())?;
        place = from_folder_of(rt.alloc(), place.as_str(), text.as_str())?;
    }
    Err(io::Error::from(ErrorKind::FilesystemLoop))
}

/// Whether an error of looking at a path says that it is free.
fn is_free(path: &str, error: &io::Error) -> bool {
    !path.is_empty() && error.kind() == ErrorKind::NotFound
}

/// What something is that is no link, given what it is where it is a file.
fn found_in(there: &Metadata, file: Found) -> io::Result<Found> {
    if there.is_file() {
        return Ok(file);
    }
    if there.is_dir() {
        return Err(io::Error::from(ErrorKind::IsADirectory));
    }
    if there.file_type().is_fifo() {
        return Ok(Found::Pipe);
    }
    Ok(Found::Device)
}

/// Whether a link is one of those by which the system shows what processes have open.
fn is_systems_own(rt: &HostRuntime, link: &Metadata) -> io::Result<bool> {
    match fs::metadata(rt, OPEN_FILES) {
        Ok(shown) => Ok(shown.dev() == link.dev()),
        Err(error) if error.kind() == ErrorKind::NotFound => Ok(false),
        Err(error) => Err(error),
    }
}

/// A path as it reads in the folder of another one.
fn from_folder_of(alloc: Global, other: &str, path: &str) -> Result<String, AllocError> {
    if path.starts_with('/') {
        return String::from_str(alloc, path);
    }
    match other.rsplit_once('/') {
        Some((folder, _)) => format!(in alloc; "{folder}/{path}"),
        None => String::from_str(alloc, path),
    }
}

// ---- A new file that is put there

/// Writes a new file beside a place, and puts it there by one rename. Where that fails the new file is removed again.
fn put_beside(
    rt: &HostRuntime,
    place: &str,
    rights: Option<Permissions>,
    bytes: &[u8],
) -> io::Result<()> {
    let (file, beside) = new_beside(rt, place, rights.is_some())?;
    let put = match write_new(file, rights, bytes) {
        Ok(()) => fs::rename(rt, beside.as_str(), place),
        Err(error) => Err(error),
    };
    if put.is_err() {
        let _ = fs::remove_file(rt, beside.as_str());
    }
    put
}

/// Makes a new file beside a place, with its final rights, and removes it.
fn try_beside(rt: &HostRuntime, place: &str, rights: Option<Permissions>) -> io::Result<()> {
    let (file, beside) = new_beside(rt, place, rights.is_some())?;
    let tried = write_new(file, rights, b"");
    let removed = fs::remove_file(rt, beside.as_str());
    tried?;
    removed
}

/// A new file in the folder of a place: the first of a hundred names that nothing has. The names are short, so that a
/// place may have the longest name. One that has yet to be given its rights is its owner's alone.
fn new_beside(rt: &HostRuntime, place: &str, is_closed: bool) -> io::Result<(File, String)> {
    let mut options = OpenOptions::new();
    options.write(true).create_new(true);
    if is_closed {
        options.mode(0o600);
    }
    for number in 0..MOST_NAMES {
        let name = format!(in rt.alloc(); ".refheap-new{number}")?;
        let beside = from_folder_of(rt.alloc(), place, name.as_str())?;
        match options.open(rt, beside.as_str()) {
            Ok(file) => return Ok((file, beside)),
            Err(error) if error.kind() == ErrorKind::AlreadyExists => {}
            Err(error) => return Err(error),
        }
    }
    Err(io::Error::from(ErrorKind::AlreadyExists))
}

/// Gives a new file its rights, and then writes all bytes to it.
fn write_new(file: File, rights: Option<Permissions>, bytes: &[u8]) -> io::Result<()> {
    if let Some(rights) = rights {
        file.set_permissions(rights)?;
    }
    write_whole(file, bytes)
}

/// Writes all bytes to a file, which is on its disk then.
fn write_whole(mut file: File, bytes: &[u8]) -> io::Result<()> {
    file.write_all(bytes)?;
    file.sync_all()
}

// ---- What is written as it is

/// A file of which all bytes stay, and to which others are written behind.
fn open_end(rt: &HostRuntime, place: &str) -> io::Result<File> {
    OpenOptions::new().append(true).open(rt, place)
}

/// A pipe. It is first opened both ways, so that the open for writing finds a reader and does not wait. Where there is
/// no other, a write fails then.
fn open_pipe(rt: &HostRuntime, place: &str) -> io::Result<File> {
    let _both_ends = OpenOptions::new().read(true).write(true).open(rt, place)?;
    open_device(rt, place)
}

fn open_device(rt: &HostRuntime, place: &str) -> io::Result<File> {
    OpenOptions::new().write(true).open(rt, place)
}
