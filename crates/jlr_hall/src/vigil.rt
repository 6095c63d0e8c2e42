//! Who looks after a client while its session waits.

/// Looks after the client at a seat while its session waits in a `remove`. Else the session finds by itself that its
/// client is gone, as it reads and writes.
pub trait Vigil {
    /// From now on a client that is gone is called off, also where it is gone already. Whether that can be.
    fn begin(&self) -> bool {
        true
    }

    /// The session waits no more.
    fn end(&self) {}
}

/// Nobody looks after the client.
#[derive(Clone, Copy)]
pub struct NoVigil;

impl Vigil for NoVigil {}
