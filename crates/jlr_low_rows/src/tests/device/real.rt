//! Files and a pair of sockets of the system, in a folder of their own.
use super::{bytes, on_device, path};
use crate::tests::calls::{Got, Stage, play};
use crate::tests::words::parsed;
use jlr_device::guarded::guarded_open;
use jlr_device::real::{RealDevice, RealResource};
use jlr_device::{Device, Mode, retry};
use jlr_types::Fault;
use std::alloc::Global;
use std::fs;
use std::fs::Permissions;
use std::io::{self, ErrorKind, Read, Write};
use std::os::unix::fs::PermissionsExt;
use std::os::unix::net::{UnixListener, UnixStream};
use std::str::SplitWhitespace;
use std::test::Fail;

const FOLDER: &str = "jlr_device_rows";

// What stands at the other end of a socket. Its calls give none where the system's fail.
#[derive(Drop)]
struct Peer {
    listener: Option<UnixListener>,
    stream: Option<UnixStream>,
}

impl Peer {
    fn listen(&mut self, rt: HostRuntime, path: &str) -> Option<Got> {
        self.listener = Some(UnixListener::bind(&rt, path).ok()?);
        Some(Got::Truth(true))
    }

    fn accept(&mut self) -> Option<Got> {
        let (stream, _) = self.listener.as_ref()?.accept().ok()?;
        self.stream = Some(stream);
        Some(Got::Truth(true))
    }

    fn read(&mut self) -> Option<Got> {
        let mut buf = [9u8; 4];
        match self.stream.as_mut()?.read(&mut buf) {
            Ok(count) => Some(Got::Read(Ok(count), buf)),
            Err(_) => None,
        }
    }

    fn write(&mut self, alloc: Global, words: &mut SplitWhitespace<'_>) -> Option<Got> {
        let bytes = bytes(alloc, words)?;
        let wrote = match &mut self.stream {
            Some(stream) => stream.write_all(bytes.as_slice()).is_ok(),
            None => false,
        };
        drop(bytes);
        Some(Got::Truth(wrote))
    }

    fn leave(&mut self) -> Option<Got> {
        self.stream = None;
        Some(Got::Truth(true))
    }

    fn stop_listening(&mut self) -> Option<Got> {
        self.listener = None;
        Some(Got::Truth(true))
    }
}

// Takes from a file all leave to read or write it.
fn forbid(rt: HostRuntime, path: &str) -> Option<Got> {
    fs::set_permissions(&rt, path, Permissions::from_mode(0)).ok()?;
    Some(Got::Truth(true))
}

// Whether an open for reading is denied, if it fails: to the superuser a forbidden file is open.
fn denied_if_at_all(device: &mut RealDevice, path: &str) -> Got {
    match guarded_open(device, Mode::Read, path) {
        Ok(_resource) => Got::Truth(true),
        Err(fault) => Got::Truth(fault == Fault::Denied),
    }
}

// What a signal interrupts so many times, and that then gives sevens, and takes all bytes.
#[derive(Drop)]
struct Interrupted {
    times: u8,
}

impl Interrupted {
    fn interrupts(&mut self) -> bool {
        if self.times == 0 {
            return false;
        }
        self.times = self.times.saturating_sub(1);
        true
    }
}

impl Read for Interrupted {
    fn read(&mut self, buf: &mut [u8]) -> io::Result<usize> {
        if self.interrupts() {
            return Err(ErrorKind::Interrupted.into());
        }
        buf.fill(7);
        Ok(buf.len())
    }
}

impl Write for Interrupted {
    fn write(&mut self, bytes: &[u8]) -> io::Result<usize> {
        if self.interrupts() {
            return Err(ErrorKind::Interrupted.into());
        }
        Ok(bytes.len())
    }

    fn flush(&mut self) -> io::Result<()> {
        Ok(())
    }
}

fn read_interrupted(words: &mut SplitWhitespace<'_>) -> Option<Got> {
    let times = parsed(words)?;
    let mut buf = [9u8; 4];
    let count = retry::read(&mut Interrupted { times }, &mut buf[..3]).ok();
    Some(Got::Read(count.ok_or(Fault::Other), buf))
}

fn write_interrupted(words: &mut SplitWhitespace<'_>) -> Option<Got> {
    let times = parsed(words)?;
    let count = retry::write(&mut Interrupted { times }, b"ab").ok();
    Some(Got::Wrote(count.ok_or(Fault::Other)))
}

// A device, its resource, and the peer.
#[derive(Drop)]
struct Real {
    rt: HostRuntime,
    device: RealDevice,
    opened: Option<RealResource>,
    peer: Peer,
}

impl Stage for Real {
    fn answered(&mut self, name: &str, words: &mut SplitWhitespace<'_>) -> Option<Got> {
        match name {
            "new" => self.renew(),
            "failed_at_all" => Some(Got::Truth(self.device.failures() > 0)),
            "forbid" => forbid(self.rt, path(words)),
            "denied_if_at_all" => Some(denied_if_at_all(&mut self.device, path(words))),
            "read_interrupted" => read_interrupted(words),
            "write_interrupted" => write_interrupted(words),
            _ => self.with_peer(name, words),
        }
    }
}

impl Real {
    // A new device, and an empty folder.
    fn renew(&mut self) -> Option<Got> {
        self.device = RealDevice::new(self.rt);
        let _ = fs::remove_dir_all(&self.rt, FOLDER);
        fs::create_dir(&self.rt, FOLDER).ok()?;
        Some(Got::Truth(true))
    }

    fn with_peer(&mut self, name: &str, words: &mut SplitWhitespace<'_>) -> Option<Got> {
        match name {
            "listen" => self.peer.listen(self.rt, path(words)),
            "accept" => self.peer.accept(),
            "peer_reads" => self.peer.read(),
            "peer_writes" => self.peer.write(self.rt.alloc(), words),
            "peer_leaves" => self.peer.leave(),
            "stop_listening" => self.peer.stop_listening(),
            _ => on_device(
                self.rt.alloc(),
                &mut self.device,
                &mut self.opened,
                name,
                words,
            ),
        }
    }
}

// `new` makes a device, and empties the folder. A file that is open for reading takes nothing, and one for writing
// gives nothing; opened for writing again it loses what it held. A device of the system cannot be synced. To the
// superuser the system denies to read the second file that is denied. After the end of a socket the peer sees the end.
// The last path is longer than the address of a socket may be. A call that is interrupted is made again:
// `read_interrupted` is one of three bytes, and `write_interrupted` one of two, after so many interruptions.
const LISTS: &str = "
    # a file is written and read back
    new -> true
    open_to_write jlr_device_rows/file -> Ok(())
    write 0 255 16 -> Ok(3)
    write 32 -> Ok(1)
    finish -> Finished { outcome: Ok(()), failures: 0 }
    open_to_read jlr_device_rows/file -> Ok(())
    read 3 -> (Ok(3), [0, 255, 16, 9])
    read 3 -> (Ok(1), [32, 9, 9, 9])
    read 3 -> (Ok(0), [9, 9, 9, 9])
    write 1 -> Err(Other)
    finish -> Finished { outcome: Ok(()), failures: 1 }
    open_to_write jlr_device_rows/file -> Ok(())
    finish -> Finished { outcome: Ok(()), failures: 0 }
    open_to_read jlr_device_rows/file -> Ok(())
    read 3 -> (Ok(0), [9, 9, 9, 9])
    finish -> Finished { outcome: Ok(()), failures: 0 }
    failed_opens -> 0

    # a file that is open for writing gives nothing
    new -> true
    open_to_write jlr_device_rows/file -> Ok(())
    write 7 -> Ok(1)
    read 3 -> (Err(Other), [9, 9, 9, 9])
    finish -> Finished { outcome: Ok(()), failures: 1 }
    failed_opens -> 0

    # what cannot be synced ends with a fault
    new -> true
    open_to_write /dev/null -> Ok(())
    write 7 8 -> Ok(2)
    finish -> Finished { outcome: Err(Other), failures: 1 }
    failed_opens -> 0

    # a call that is interrupted is made again
    new -> true
    read_interrupted 0 -> (Ok(3), [7, 7, 7, 9])
    read_interrupted 1 -> (Ok(3), [7, 7, 7, 9])
    read_interrupted 200 -> (Ok(3), [7, 7, 7, 9])
    write_interrupted 0 -> Ok(2)
    write_interrupted 1 -> Ok(2)
    write_interrupted 200 -> Ok(2)

    # what cannot be opened is a fault
    new -> true
    open_to_read jlr_device_rows/missing -> Err(NotFound)
    failed_opens -> 1
    open_to_read -> Err(NotFound)
    failed_opens -> 2
    open_to_write jlr_device_rows/missing/x -> Err(NotFound)
    failed_opens -> 3
    open_to_write jlr_device_rows -> Err(Other)
    failed_opens -> 4
    open_to_read jlr_device_rows/\0 -> Err(Other)
    failed_opens -> 5

    # what is denied is told as denied
    new -> true
    open_to_write jlr_device_rows/file -> Ok(())
    finish -> Finished { outcome: Ok(()), failures: 0 }
    forbid jlr_device_rows/file -> true
    denied_if_at_all jlr_device_rows/file -> true
    denied_if_at_all /sys/bus/platform/uevent -> true
    failed_at_all -> true

    # a socket is joined and shut down
    new -> true
    listen jlr_device_rows/socket -> true
    connect jlr_device_rows/socket -> Ok(())
    accept -> true
    peer_writes 97 98 99 100 101 -> true
    read 4 -> (Ok(4), [97, 98, 99, 100])
    read 4 -> (Ok(1), [101, 9, 9, 9])
    write 120 121 122 -> Ok(3)
    peer_reads -> (Ok(3), [120, 121, 122, 9])
    finish -> Finished { outcome: Ok(()), failures: 0 }
    peer_reads -> (Ok(0), [9, 9, 9, 9])
    failed_opens -> 0

    # a peer that went away is a fault
    new -> true
    listen jlr_device_rows/socket -> true
    connect jlr_device_rows/socket -> Ok(())
    accept -> true
    peer_leaves -> true
    read 4 -> (Ok(0), [9, 9, 9, 9])
    write 120 -> Err(Other)
    write 120 -> Err(Other)
    finish -> Finished { outcome: Ok(()), failures: 2 }

    # what cannot be joined is a fault
    new -> true
    open_to_write jlr_device_rows/file -> Ok(())
    finish -> Finished { outcome: Ok(()), failures: 0 }
    listen jlr_device_rows/left -> true
    stop_listening -> true
    connect jlr_device_rows/missing -> Err(NotFound)
    failed_opens -> 1
    connect jlr_device_rows/file -> Err(Other)
    failed_opens -> 2
    connect jlr_device_rows/left -> Err(Other)
    failed_opens -> 3
    connect jlr_device_rows/0123456789012345678901234567890123456789012345678901234567890123456789012345678901234567890123456789 -> Err(Other)
    failed_opens -> 4
";

#[test]
fn files_and_sockets_answer_as_the_rows_say(rt: HostRuntime) -> Result<(), Fail> {
    let mut real = Real {
        rt,
        device: RealDevice::new(rt),
        opened: None,
        peer: Peer {
            listener: None,
            stream: None,
        },
    };
    let played = play(&mut real, rt.alloc(), LISTS);
    drop(real);
    played?;
    fs::remove_dir_all(&rt, FOLDER)?;
    Ok(())
}
