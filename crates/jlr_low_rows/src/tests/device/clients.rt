//! Calls that would have to wait, made for a client that goes.
use super::{bytes, on_device, path};
use crate::tests::calls::{Got, Stage, play};
use jlr_device::guarded::{guarded_connect, guarded_write};
use jlr_device::real::{RealDevice, RealResource};
use jlr_device::{Device, Resource};
use jlr_types::Fault;
use std::fs;
use std::io::Write;
use std::net::Shutdown;
use std::os::fd::AsRawFd;
use std::os::unix::net::{UnixListener, UnixStream};
use std::str::SplitWhitespace;
use std::test::Fail;

const FOLDER: &str = "clients_of_a_device";

// So many writes fill what lies between two ends at most.
const WRITES: u32 = 10_000;

// A device that attends one end of a pair of sockets, whose other end is the client; what was joined, and its other
// end.
#[derive(Drop)]
struct Attended {
    rt: HostRuntime,
    device: RealDevice,
    served: Option<UnixStream>,
    client: Option<UnixStream>,
    opened: Option<RealResource>,
    listener: Option<UnixListener>,
    peer: Option<UnixStream>,
}

impl Stage for Attended {
    fn answered(&mut self, name: &str, words: &mut SplitWhitespace<'_>) -> Option<Got> {
        match name {
            "new" => self.renew(),
            "client_comes" => self.client_comes(),
            "client_goes" => {
                self.client = None;
                Some(Got::Truth(true))
            }
            "client_sends_no_more" => {
                let ended = self.client.as_ref()?.shutdown(Shutdown::Write);
                Some(Got::Truth(ended.is_ok()))
            }
            _ => self.with_peer(name, words),
        }
    }
}

impl Attended {
    // A new device that attends nobody, and an empty folder.
    fn renew(&mut self) -> Option<Got> {
        self.device = RealDevice::new(self.rt);
        self.opened = None;
        let _ = fs::remove_dir_all(&self.rt, FOLDER);
        fs::create_dir(&self.rt, FOLDER).ok()?;
        Some(Got::Truth(true))
    }

    fn client_comes(&mut self) -> Option<Got> {
        let (served, client) = UnixStream::pair(&self.rt).ok()?;
        self.device.attend(Some(served.as_raw_fd()));
        self.served = Some(served);
        self.client = Some(client);
        Some(Got::Truth(true))
    }

    // Joins a socket that nobody else knows, and accepts it.
    fn meet(&mut self, words: &mut SplitWhitespace<'_>) -> Option<Got> {
        let path = path(words);
        let listener = UnixListener::bind(&self.rt, path).ok()?;
        self.opened = guarded_connect(&mut self.device, path).ok();
        let (peer, _) = listener.accept().ok()?;
        self.listener = Some(listener);
        self.peer = Some(peer);
        Some(Got::Truth(self.opened.is_some()))
    }

    fn with_peer(&mut self, name: &str, words: &mut SplitWhitespace<'_>) -> Option<Got> {
        match name {
            "meet" => self.meet(words),
            "peer_writes" => {
                let bytes = bytes(self.rt.alloc(), words)?;
                let wrote = self.peer.as_mut()?.write_all(bytes.as_slice());
                drop(bytes);
                Some(Got::Truth(wrote.is_ok()))
            }
            "write_until_it_fails" => Some(Got::Wrote(Err(until_it_fails(
                &self.device,
                self.opened.as_mut()?,
            )?))),
            _ => on_device(
                self.rt.alloc(),
                &mut self.device,
                &mut self.opened,
                name,
                words,
            ),
        }
    }
}

// The fault of the first write that fails; none where all go through.
fn until_it_fails(device: &RealDevice, resource: &mut RealResource) -> Option<Fault> {
    for _ in 0..WRITES {
        if let Err(fault) = guarded_write(device, resource, &[0; 200]) {
            return Some(fault);
        }
    }
    None
}

// Where a row would wait for ever, the test runs out of its time. What does not have to wait is done also for a client
// that went.
const LISTS: &str = "
    # a read of a silent peer ends with its client
    new -> true
    client_comes -> true
    meet clients_of_a_device/a -> true
    peer_writes 1 2 -> true
    read 4 -> (Ok(2), [1, 2, 9, 9])
    client_goes -> true
    read 4 -> (Err(Other), [9, 9, 9, 9])
    failed_calls -> 1
    peer_writes 3 -> true
    read 4 -> (Ok(1), [3, 9, 9, 9])
    write 5 -> Ok(1)
    failed_calls -> 1

    # a write to a peer that does not read ends with its client
    new -> true
    client_comes -> true
    meet clients_of_a_device/a -> true
    client_goes -> true
    write_until_it_fails -> Err(Other)
    failed_calls -> 1

    # a client that only sends no more is not gone
    new -> true
    client_comes -> true
    meet clients_of_a_device/a -> true
    client_sends_no_more -> true
    peer_writes 4 -> true
    read 4 -> (Ok(1), [4, 9, 9, 9])
    client_goes -> true
    read 4 -> (Err(Other), [9, 9, 9, 9])

    # files do not wait
    new -> true
    client_comes -> true
    client_goes -> true
    open_to_write clients_of_a_device/file -> Ok(())
    write 1 -> Ok(1)
    finish -> Finished { outcome: Ok(()), failures: 0 }
    open_to_read clients_of_a_device/file -> Ok(())
    read 4 -> (Ok(1), [1, 9, 9, 9])
    read 4 -> (Ok(0), [9, 9, 9, 9])

    # nobody is attended
    new -> true
    meet clients_of_a_device/a -> true
    peer_writes 6 -> true
    read 4 -> (Ok(1), [6, 9, 9, 9])
    write 7 -> Ok(1)
";

#[test]
fn waiting_calls_answer_as_the_rows_say(rt: HostRuntime) -> Result<(), Fail> {
    let mut attended = Attended {
        rt,
        device: RealDevice::new(rt),
        served: None,
        client: None,
        opened: None,
        listener: None,
        peer: None,
    };
    let played = play(&mut attended, rt.alloc(), LISTS);
    drop(attended);
    played?;
    fs::remove_dir_all(&rt, FOLDER)?;
    Ok(())
}
