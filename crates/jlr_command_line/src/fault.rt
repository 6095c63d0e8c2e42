//! Why the program ends with a status other than 0.
ghost use Rattle.std.specs.Prelude.{◌≡◌};
ghost use Rattle.jlr_command_line.specs.Status.{status_of};

use crate::reason::{Place, Reason};
use std::alloc::AllocError;
use thiserror::Error;

/// Why the program ends with a status other than 0.
#[derive(Debug, Drop, Error)]
pub enum ProgramFault {
    #[error("read failed")]
    Read,
    #[error("write failed")]
    Write,
    /// The words are no call of the program, or ask for help.
    #[error("{0}")]
    CommandLine(clap::Error),
    #[error("unfinished line")]
    Unfinished,
    #[error("too many lines")]
    TooManyLines,
    #[error("cannot read {0}")]
    CannotRead(Place),
    #[error("cannot save {0}")]
    CannotSave(Place),
    #[error("cannot listen on {0}")]
    CannotListen(Place),
    #[error("cannot connect to {0}")]
    CannotConnect(Place),
    /// A server that was asked to end did not save its history, or was cut off before it had ended.
    #[error("the server did not end in order")]
    NotEnded,
    /// A seat of a server does not agree with the history.
    #[error("seat {0} disagrees")]
    Disagree(u8),
    /// The verdict on a history is not legal. It was written; nothing more is said.
    #[error("illegal")]
    Illegal,
    #[error("trace truncated")]
    TraceTruncated,
    #[error("bad mark")]
    BadMark,
    #[error("bad version")]
    BadVersion,
    #[error("bad entry {0}")]
    BadEntry(u64),
    #[error("not joined")]
    NotJoined,
    #[error("no memory")]
    NoMemory(#[from(alloc)] AllocError),
}

impl ProgramFault {
    /// The status that the program ends with, from 1 to 5.
    pub fn status(&self) -> u8
        ensures { result ≡ status_of self.now }
    {
        match self {
            ProgramFault::Read | ProgramFault::Write => 1,
            ProgramFault::CannotRead(_) | ProgramFault::CannotSave(_) => 1,
            ProgramFault::CannotListen(_) | ProgramFault::CannotConnect(_) => 1,
            ProgramFault::NotEnded => 1,
            ProgramFault::CommandLine(_) => 2,
            ProgramFault::Illegal | ProgramFault::Disagree(_) => 3,
            ProgramFault::Unfinished | ProgramFault::TooManyLines => 4,
            ProgramFault::TraceTruncated | ProgramFault::BadMark => 4,
            ProgramFault::BadVersion | ProgramFault::BadEntry(_) => 4,
            ProgramFault::NoMemory(_) | ProgramFault::NotJoined => 5,
        }
    }

    /// Why a file or a socket could not be used, where that ends the program.
    pub fn reason(&self) -> Option<Reason> {
        match self {
            ProgramFault::CannotRead(place)
            | ProgramFault::CannotSave(place)
            | ProgramFault::CannotListen(place)
            | ProgramFault::CannotConnect(place) => Some(place.reason),
            _ => None,
        }
    }
}
