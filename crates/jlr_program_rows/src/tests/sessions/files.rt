//! Real files and sockets.
//!
//! No lists: each of these sessions has something made before it, and something looked at after it.
use super::player::{ended, is_answered, told};
use super::settings::limits;
use super::words::{lines, text_of};
use jlr_device::Device;
use jlr_device::real::RealDevice;
use jlr_session::shell::SessionEnd;
use std::fs::{self, File};
use std::io::{self, Read};
use std::os::unix::net::UnixListener;
use std::test::Fail;

/// A session over real files and sockets ends and is answered so. How many calls of the device failed.
fn played<R: Read>(
    rt: HostRuntime,
    reader: &mut R,
    answers: &str,
    wanted: SessionEnd,
) -> Result<u64, Fail> {
    let mut device = RealDevice::new(rt);
    let mut out = Vec::new(rt.alloc());
    let limits = limits(16, 4, 10_000)?;
    let (end, _) = ended(rt.alloc(), limits, reader, &mut out, &mut device)?;
    if end != wanted || !is_answered(rt.alloc(), out.as_slice(), answers) {
        let got = text_of(out.as_slice());
        return Err(told(rt.alloc(), "real files and sockets", answers, got));
    }
    Ok(device.failures())
}

/// The same of commands.
fn commanded(
    rt: HostRuntime,
    commands: &str,
    answers: &str,
    wanted: SessionEnd,
) -> Result<u64, Fail> {
    let input = lines(rt.alloc(), commands).ok_or("no commands")?;
    played(rt, &mut input.as_slice(), answers, wanted)
}

/// Takes a socket and its folder away, if they are there.
fn take_away(rt: HostRuntime, folder: &str, socket: &str) {
    let _ = fs::remove_file(&rt, socket);
    let _ = fs::remove_dir(&rt, folder);
}

/// A socket in a folder of its own, which others may connect to.
fn bound(rt: HostRuntime, folder: &str, socket: &str) -> io::Result<UnixListener> {
    take_away(rt, folder, socket);
    fs::create_dir(&rt, folder)?;
    UnixListener::bind(&rt, socket)
}

/// The bytes of all that can still be read.
fn rest_of<R: Read>(rt: HostRuntime, reader: &mut R) -> io::Result<Vec<u8>> {
    let mut bytes = Vec::new(rt.alloc());
    reader.read_to_end(&mut bytes)?;
    Ok(bytes)
}

#[test]
fn a_file_whose_guard_has_died_is_closed_once(rt: HostRuntime) -> Result<(), Fail> {
    let path = "jlr_prog_died";
    let _ = fs::remove_file(&rt, path);
    let failures = commanded(
        rt,
        "open r /nowhere/x; stat; open w jlr_prog_died; write 1 00ff; drop 1; gc; open r jlr_prog_died; read 1 200; read 1 200; stat",
        "fault notfound; stat 2 0 0 0 0; = 1; wrote 2; ok; ok; = 1; data 00ff; end; stat 3 1 1 1 0",
        SessionEnd::End,
    )?;
    assert_eq!(rt; failures, 1);
    let bytes = rest_of(rt, &mut File::open(&rt, path)?)?;
    assert_eq!(rt; bytes.as_slice(), b"\x00\xff".as_slice());
    fs::remove_file(&rt, path)?;
    Ok(())
}

#[test]
fn a_file_that_was_closed_by_hand_is_read_back(rt: HostRuntime) -> Result<(), Fail> {
    let path = "jlr_prog_closed";
    let _ = fs::remove_file(&rt, path);
    commanded(
        rt,
        "open w jlr_prog_closed; write 1 6869; close 1; drop 1; gc; open r jlr_prog_closed; read 1 1; read 1 9; read 1 9; bye",
        "= 1; wrote 2; ok; ok; ok; = 1; data 68; data 69; end; ok",
        SessionEnd::Bye,
    )?;
    fs::remove_file(&rt, path)?;
    Ok(())
}

#[test]
fn a_peer_reads_what_is_written_and_then_the_end(rt: HostRuntime) -> Result<(), Fail> {
    let (folder, socket) = ("jlr_prog_joined", "jlr_prog_joined/socket");
    let listener = bound(rt, folder, socket)?;
    commanded(
        rt,
        "connect jlr_prog_joined/socket; write 1 6869; close 1; close 1; stat; connect jlr_prog_joined/none",
        "= 1; wrote 2; ok; ok; stat 2 0 1 1 0; fault notfound",
        SessionEnd::End,
    )?;
    let (mut peer, _) = listener.accept()?;
    assert_eq!(rt; rest_of(rt, &mut peer)?.as_slice(), b"hi".as_slice());
    take_away(rt, folder, socket);
    Ok(())
}

/// Gives a line, and then others. In between the peer of the first connection leaves.
#[derive(Drop)]
struct PeerLeaves<'a> {
    line: &'a [u8],
    listener: Option<UnixListener>,
    others: &'a [u8],
}

impl Read for PeerLeaves<'_> {
    fn read(&mut self, buf: &mut [u8]) -> io::Result<usize> {
        if !self.line.is_empty() {
            return self.line.read(buf);
        }
        if let Some(listener) = self.listener.take() {
            let left = leave(&listener);
            drop(listener);
            left?;
        }
        self.others.read(buf)
    }
}

/// A peer comes, and leaves.
fn leave(listener: &UnixListener) -> io::Result<()> {
    let (peer, _) = listener.accept()?;
    drop(peer);
    Ok(())
}

#[test]
fn a_write_to_a_peer_that_is_gone_is_a_fault(rt: HostRuntime) -> Result<(), Fail> {
    let (folder, socket) = ("jlr_prog_left", "jlr_prog_left/socket");
    let mut reader = PeerLeaves {
        line: b"connect jlr_prog_left/socket\n",
        listener: Some(bound(rt, folder, socket)?),
        others: b"write 1 6869\nclose 1\nfaults\nstat\n",
    };
    let answers = "= 1; fault other; ok; list; stat 2 0 1 1 0";
    played(rt, &mut reader, answers, SessionEnd::End)?;
    take_away(rt, folder, socket);
    Ok(())
}
