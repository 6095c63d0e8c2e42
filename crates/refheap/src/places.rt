//! The standard places of the process: descriptors 0, 1 and 2.
use std::fs::File;
use std::os::fd::AsRawFd;

/// Keeps those standard places filled that were free when the program began.
///
/// A program may be started with its standard input, output or error closed. The first file of a session would then get
/// that place, and replies would be written into it. So the root directory is opened for reading in its place: to read
/// a line from it fails, and so does to write a reply to it.
#[derive(Drop)]
pub struct StandardPlaces {
    _filled: [Option<File>; 3],
}

impl StandardPlaces {
    /// Fills the places that are free. A file gets the lowest free descriptor, so three that are open at once fill all
    /// three; what gets another descriptor is closed again.
    pub fn filled(rt: &HostRuntime) -> StandardPlaces {
        let opened = [root(rt), root(rt), root(rt)];
        StandardPlaces {
            _filled: opened.map(standing),
        }
    }
}

fn root(rt: &HostRuntime) -> Option<File> {
    File::open(rt, "/").ok()
}

/// The file, if it has a standard place.
fn standing(file: Option<File>) -> Option<File> {
    file.filter(|file| file.as_raw_fd() <= 2)
}
