//! What the system tells of a path before a call is made with it.

use std::fs;
use std::io::{self, ErrorKind};
use std::os::unix::fs::MetadataExt;

/// What is told of a path before a call is made with it. Where others change folders meanwhile, the call may find
/// another thing there.
pub trait Places {
    ghost use Rattle.std.specs.Prelude.{ℕ, Bool, List};

    // what may be told of links on a path: the path, how many bytes of it are the folder below which they count, and
    // the answer
    ghost may_be_straight: { Self → List ℕ → ℕ → Bool → Type 0 } = { λ _ _ _ _. Unit {0} };

    // what may be told of a socket: its path, and the answer
    ghost may_be_own: { Self → List ℕ → Bool → Type 0 } = { λ _ _ _. Unit {0} };

    /// Whether no part of a path is a link, behind the folder in its first `folder` bytes.
    fn is_straight(&self, path: &str, folder: usize) -> bool
        ensures { may_be_straight self.now path.now folder result };

    /// Whether a path leads to a socket of the program's own.
    fn is_own(&self, path: &str) -> bool
        ensures { may_be_own self.now path.now result };
}

/// Which file a path leads to: the number of its device, and its own number there.
#[derive(Clone, Copy, PartialEq, Eq, Debug)]
pub struct Inode {
    /// The number of the device.
    pub device: u64,
    /// The number of the file on its device.
    pub number: u64,
}

impl Inode {
    /// That of the file to which a path leads; links are followed.
    ///
    /// # Errors
    /// Those of the system: there is no such file, or it may not be looked at.
    pub fn at(rt: &HostRuntime, path: &str) -> io::Result<Inode> {
        let found = fs::metadata(rt, path)?;
        Ok(Inode {
            device: found.dev(),
            number: found.ino(),
        })
    }
}

/// What the system tells.
///
/// A path is straight where none of its parts behind the folder is a symbolic link, as far as parts exist; where one
/// cannot be looked at, it is not straight. This does not cover: another process that puts a link there between the
/// look and the call; files with a second name (hard links) and file systems mounted below the folder, which count as
/// below it; links in the path of the folder itself, which are followed.
#[derive(Drop)]
pub struct SystemPlaces<'a> {
    rt: HostRuntime,
    own: &'a [Inode],
}

impl<'a> SystemPlaces<'a> {
    /// The places of a program whose own sockets are these.
    pub fn new(rt: HostRuntime, own: &'a [Inode]) -> SystemPlaces<'a> {
        SystemPlaces { rt, own }
    }

    /// Whether a link stands at this path, or none can be ruled out; `None` where nothing stands there.
    fn link_at(&self, path: &str) -> Option<bool> {
        match fs::symlink_metadata(&self.rt, path) {
            Ok(found) => Some(found.is_symlink()),
            Err(error) => match error.kind() {
                ErrorKind::NotFound | ErrorKind::NotADirectory => None,
                _ => Some(true),
            },
        }
    }
}

impl<'a> Places for SystemPlaces<'a> {
    fn is_straight(&self, path: &str, folder: usize) -> bool {
        for (end, letter) in path.char_indices() {
            if letter == '/' && end > folder {
                match self.link_at(path.get(..end).unwrap_or("")) {
                    Some(false) => {}
                    Some(true) => return false,
                    None => return true,
                }
            }
        }
        self.link_at(path) != Some(true)
    }

    fn is_own(&self, path: &str) -> bool {
        match Inode::at(&self.rt, path) {
            Ok(inode) => self.own.contains(&inode),
            Err(_) => false,
        }
    }
}
