//! Why a file or a socket cannot be used, and what to do.
use std::alloc::{AllocError, Global};
use std::fmt;
use std::io::ErrorKind;

/// Why a file or a socket cannot be used.
#[derive(Clone, Copy, Debug)]
pub enum Reason {
    /// There is nothing of that name.
    Missing,
    /// Its rights, or those of its folder, do not allow it.
    Denied,
    /// Something of that name is there.
    Taken,
    /// No name for a new file beside it is free.
    NoNameFree,
    /// Nobody listens on a socket.
    NobodyListens,
    /// It is a folder.
    Folder,
    /// A part of the path is no folder.
    NoFolder,
    /// The path is empty or too long.
    TooLong,
    /// No room is left.
    NoRoom,
    /// Its file system can only be read.
    OnlyRead,
    /// No thread can be started.
    NoThread,
    /// The system gave another reason.
    Other,
}

impl Reason {
    /// The reason that an error of the system stands for.
    pub fn of(kind: ErrorKind) -> Reason {
        match kind {
            ErrorKind::NotFound => Reason::Missing,
            ErrorKind::PermissionDenied => Reason::Denied,
            ErrorKind::AddrInUse => Reason::Taken,
            ErrorKind::AlreadyExists => Reason::NoNameFree,
            ErrorKind::ConnectionRefused => Reason::NobodyListens,
            ErrorKind::IsADirectory => Reason::Folder,
            ErrorKind::NotADirectory => Reason::NoFolder,
            ErrorKind::InvalidInput | ErrorKind::InvalidFilename => Reason::TooLong,
            ErrorKind::StorageFull | ErrorKind::QuotaExceeded | ErrorKind::FileTooLarge => {
                Reason::NoRoom
            }
            ErrorKind::ReadOnlyFilesystem => Reason::OnlyRead,
            _ => Reason::Other,
        }
    }

    /// The reason in words, and what to do.
    pub fn words(self) -> &'static str {
        match self {
            Reason::Missing => "there is no such file or folder: check the path",
            Reason::Denied => {
                "permission is denied: check the rights of the file and of its folder"
            }
            Reason::Taken =>
                "it is in use: remove it if no server runs there, or name another path",
            Reason::NoNameFree => {
                "all names from .refheap-new0 to .refheap-new99 beside it are taken: remove them"
            }
            Reason::NobodyListens => "nobody listens there: start a server",
            Reason::Folder => "it is a folder: name a file",
            Reason::NoFolder => "a part of the path is no folder: check the path",
            Reason::TooLong => {
                "the name is empty or too long: a name has at most 255 bytes, a socket's path 107, and 103 with a mode"
            }
            Reason::NoRoom => "no room is left: make room, or name another place",
            Reason::OnlyRead => "its file system can only be read: name another place",
            Reason::NoThread => "no thread can be started: raise the limit of processes",
            Reason::Other => "the system refused it",
        }
    }
}

/// A path, and why what it names cannot be used. It is shown as the path.
#[derive(Debug, Drop)]
pub struct Place {
    pub path: String,
    pub reason: Reason,
}

impl Place {
    /// This path, with why what it names cannot be used.
    ///
    /// # Errors
    /// `AllocError` where there is no memory for the path.
    pub fn new(alloc: Global, path: &str, reason: Reason) -> Result<Place, AllocError> {
        let mut text = String::new(alloc);
        text.push_str(path)?;
        Ok(Place { path: text, reason })
    }
}

impl fmt::Display for Place {
    fn fmt<W: fmt::Write>(&self, f: &mut fmt::Formatter<W>) -> fmt::Result {
        f.write_str(self.path.as_str())
    }
}
