//! The files of listening sockets: made, found dead, and removed only where they are one's own.
use jlr_device::places::Inode;
use std::alloc::Global;
use std::fs::{self, Permissions};
use std::io::{Error, ErrorKind, Result};
use std::os::unix::fs::{FileTypeExt, PermissionsExt};
use std::os::unix::net::{UnixListener, UnixStream};

/// Removes the file at a path, where it is still this one.
pub fn remove_own(rt: &HostRuntime, path: &str, own: Inode) {
    if let Ok(found) = Inode::at(rt, path) {
        if found == own {
            let _ = fs::remove_file(rt, path);
        }
    }
}

/// A socket that listens at a path, and its file. A file that a server left behind that is no more, so that nobody
/// listens there, is replaced. With a mode, 0 to 0o777, the file has these rights before anybody can connect; else its
/// rights are those of the umask.
///
/// # Errors
/// `AddrInUse` where a file is there that is no dead socket, `InvalidInput` where the path is empty or longer than 107
/// bytes, or than 103 with a mode, since the file has the path with `.new` behind it first, or why the system makes
/// none. No file is left then.
pub fn listen(
    rt: &HostRuntime,
    alloc: Global,
    path: &str,
    mode: Option<u32>,
) -> Result<(UnixListener, Inode)> {
    if path.is_empty() {
        return Err(Error::from(ErrorKind::InvalidInput));
    }
    remove_dead(rt, path)?;
    let listener = match mode {
        None => bind(rt, path)?,
        Some(mode) => bind_with(rt, alloc, path, mode)?,
    };
    match Inode::at(rt, path) {
        Ok(file) => Ok((listener, file)),
        Err(error) => {
            let _ = fs::remove_file(rt, path);
            Err(error)
        }
    }
}

/// A socket that listens at a path. Where it cannot listen no file of it is left.
fn bind(rt: &HostRuntime, path: &str) -> Result<UnixListener> {
    let bound = UnixListener::bind(rt, path);
    if bound.is_err() {
        let _ = remove_dead(rt, path);
    }
    bound
}

/// A socket that listens at a path, whose file gets its rights under a name of its own, and then the path as well.
fn bind_with(rt: &HostRuntime, alloc: Global, path: &str, mode: u32) -> Result<UnixListener> {
    let fresh = format!(in alloc; "{path}.new")?;
    remove_dead(rt, fresh.as_str())?;
    let listener = bind(rt, fresh.as_str())?;
    let placed = place(rt, fresh.as_str(), path, mode);
    let _ = fs::remove_file(rt, fresh.as_str());
    placed?;
    Ok(listener)
}

/// Gives a file its rights and then a second path, at which there is no file yet.
fn place(rt: &HostRuntime, fresh: &str, path: &str, mode: u32) -> Result<()> {
    fs::set_permissions(rt, fresh, Permissions::from_mode(mode))?;
    match fs::hard_link(rt, fresh, path) {
        Err(error) if error.kind() == ErrorKind::AlreadyExists => {
            Err(Error::from(ErrorKind::AddrInUse))
        }
        linked => linked,
    }
}

/// Removes the file at a path where it is a socket at which nobody listens.
fn remove_dead(rt: &HostRuntime, path: &str) -> Result<()> {
    if is_dead(rt, path) {
        return fs::remove_file(rt, path);
    }
    Ok(())
}

/// Whether the file at a path is a socket at which nobody listens.
fn is_dead(rt: &HostRuntime, path: &str) -> bool {
    let Ok(found) = fs::symlink_metadata(rt, path) else {
        return false;
    };
    if !found.file_type().is_socket() {
        return false;
    }
    match UnixStream::connect(rt, path) {
        Ok(_) => false,
        Err(error) => error.kind() == ErrorKind::ConnectionRefused,
    }
}
