//! Rows of sessions.
use super::script::Plan;
use super::seat::Manner;
use crate::tests::streams::Failing;
use jlr_session::shell::SessionEnd;

/// What a session is over.
#[derive(Clone, Copy)]
pub(super) enum Place {
    /// A heap that answers each command by `ok`.
    Plain,
    /// A heap that counts.
    Counting,
    Seat(Manner),
}

/// A row: a session, or what is set or looked at. A case begins over an obliging seat and a device whose calls succeed,
/// read and written in one piece; the rows that set something hold up to the next case.
#[derive(Clone, Copy)]
pub(super) enum Row {
    Case(&'static str),
    On(Place),
    /// What becomes of the first open.
    Device(Plan),
    /// What `~` stands for in what is given, and in what is sent.
    Long(usize),
    /// So many bytes are read at once.
    Step(usize),
    /// The session is the same with steps of these sizes, behind a first piece of any length.
    Cuts(&'static [usize]),
    /// Which read fails.
    Read(Failing),
    /// So many bytes are written, one at a time.
    Room(usize),
    /// So many flushes succeed.
    Flushes(usize),
    /// A session over these bytes, how it ends, and what it sends.
    Play(&'static str, SessionEnd, &'static str),
    /// Over each prefix of these bytes, after which a read fails: what is sent is a prefix of this.
    EachReadFails(&'static str, &'static str),
    /// With room for each prefix of what is sent.
    EachWriteFails(&'static str, &'static str),
    /// What the last session asked.
    Asked(&'static str),
    Settled(usize),
    Counted(usize),
    Unread(usize),
}
