//! Two sessions that go on side by side: one waits in a read, and the other is served.
use super::clients::{After, Client};
use super::player::serve_all;
use std::test::Fail;

/// The first client's read is held until the second was answered six times.
pub(super) const HELD: (&str, &str) = (
    "open r x; bind f 1; read 1 4; bye",
    "= 1; ok; data 01020304; ok",
);

pub(super) const SERVED: (&str, &str) = (
    "find f; close 1; new -; bind b 2; find b; bye",
    "= 1; ! 11; = 2; ok; = 3; ok",
);

#[test]
fn gate_serve(rt: HostRuntime) -> Result<(), Fail> {
    let clients = [Client::new(HELD.0, HELD.1), Client::new(SERVED.0, SERVED.1)];
    let entries = serve_all(rt, &rt, 16, &clients, After::Read, 6)?;
    if entries != (7, 7) {
        return Err("the book has other entries".into());
    }
    Ok(())
}
