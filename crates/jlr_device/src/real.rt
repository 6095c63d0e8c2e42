//! The files and sockets of the system.
ghost use Rattle.std.specs.Prelude.{◌≡◌, ◌+◌, ◌^◌, ◌<◌, Ok, Err, MatchResult};
ghost use Rattle.std.specs.IoError.{error_kind};
ghost use Rattle.jlr_device.specs.Failures.{Counts};
ghost use Rattle.jlr_device.specs.Faults.{fault_of_kind};

use crate::device::{Device, Mode};
use crate::resource::{Finished, Resource};
use crate::retry;
use crate::waiting::{Way, is_ready};
use jlr_types::Fault;
use std::fs::{self, File, OpenOptions};
use std::io::{self, Error, ErrorKind};
use std::net::Shutdown;
use std::os::fd::{AsRawFd, RawFd};
use std::os::unix::fs::FileTypeExt;
use std::os::unix::net::UnixStream;

/// The files and Unix stream sockets of the system.
///
/// No open waits for the other end of a FIFO, and no joining for a place; a FIFO is opened only where it may be both
/// read and written. What is read before anybody writes is the end, and what is written before anybody reads fails.
/// While a client is attended, a read or a write that would have to wait ends with its going; but one that others
/// outrun, since they read or write the same, may wait.
#[derive(Drop)]
pub struct RealDevice {
    rt: HostRuntime,
    client: Option<RawFd>,
    failures: u64,
}

impl RealDevice {
    /// The device of a program's runtime. None of its calls has failed, and it waits for no client.
    pub fn new(rt: HostRuntime) -> RealDevice
        ensures failures { result.failures ≡ 0 }
        ensures client { result.client ≡ None }
    {
        RealDevice {
            rt,
            client: None,
            failures: 0,
        }
    }
}

impl Device for RealDevice {
    type Res = RealResource;

    ghost count = { λ d. d.failures };

    fn failures(&self) -> u64 {
        self.failures
    }

    fn open(&mut self, mode: Mode, path: &str) -> Result<RealResource, Fault> {
        let file = counted(opened(&self.rt, mode, path), &mut self.failures)?;
        Ok(RealResource::new(Handle::File(file)))
    }

    fn connect(&mut self, path: &str) -> Result<RealResource, Fault> {
        let stream = counted(joined(&self.rt, path), &mut self.failures)?;
        Ok(RealResource::new(Handle::Socket(stream)))
    }

    fn attend(&mut self, client: Option<RawFd>) {
        self.client = client;
    }

    fn read(&self, resource: &mut RealResource, buf: &mut [u8]) -> Result<usize, Fault> {
        if !is_ready(resource.descriptor(), Way::Read, self.client) {
            return Err(resource.called_off());
        }
        resource.read(buf)
    }

    fn write(&self, resource: &mut RealResource, bytes: &[u8]) -> Result<usize, Fault> {
        if !is_ready(resource.descriptor(), Way::Write, self.client) {
            return Err(resource.called_off());
        }
        resource.write(bytes)
    }
}

/// An open file or a connected Unix stream socket of the system.
#[derive(Drop)]
pub struct RealResource {
    handle: Handle,
    failures: u64,
}

#[derive(Drop)]
enum Handle {
    File(File),
    Socket(UnixStream),
}

impl RealResource {
    fn new(handle: Handle) -> RealResource
        ensures { result ≡ record { handle = handle; failures = 0 } }
    {
        RealResource {
            handle,
            failures: 0,
        }
    }

    fn descriptor(&self) -> RawFd {
        match &self.handle {
            Handle::File(file) => file.as_raw_fd(),
            Handle::Socket(stream) => stream.as_raw_fd(),
        }
    }

    /// The fault of a call that was not made since its client is gone. It is counted.
    fn called_off(&mut self) -> Fault
        requires { self.old.failures + 1 < 2 ^ 64 }
        ensures { self.new.failures ≡ self.old.failures + 1 }
    {
        self.failures += 1;
        Fault::Other
    }
}

impl Resource for RealResource {
    ghost handling = { record {
      count = λ r. r.failures;
      reads = λ _ _ _ _ _. Unit {0};
      writes = λ _ _ _ _. Unit {0};
      finishes = λ _ _. Unit {0};
    } };

    fn failures(&self) -> u64 {
        self.failures
    }

    fn read(&mut self, buf: &mut [u8]) -> Result<usize, Fault> {
        let done = match &mut self.handle {
            Handle::File(file) => retry::read(file, buf),
            Handle::Socket(stream) => retry::read(stream, buf),
        };
        counted(done, &mut self.failures)
    }

    fn write(&mut self, bytes: &[u8]) -> Result<usize, Fault> {
        let done = match &mut self.handle {
            Handle::File(file) => retry::write(file, bytes),
            Handle::Socket(stream) => retry::write(stream, bytes),
        };
        counted(done, &mut self.failures)
    }

    fn finish(self) -> Finished {
        let RealResource {
            handle,
            mut failures,
        } = self;
        let done = match &handle {
            Handle::File(file) => file.sync_all(),
            Handle::Socket(stream) => stream.shutdown(Shutdown::Both),
        };
        let outcome = counted(done, &mut failures);
        Finished { outcome, failures }
    }
}

/// Opens a file. A FIFO is first opened both ways, so that the open in its mode finds its other end and does not wait.
fn opened(rt: &HostRuntime, mode: Mode, path: &str) -> io::Result<File> {
    let _both_ends = match fs::metadata(rt, path) {
        Ok(found) if found.file_type().is_fifo() => {
            Some(OpenOptions::new().read(true).write(true).open(rt, path)?)
        }
        _ => None,
    };
    match mode {
        Mode::Read => File::open(rt, path),
        Mode::Write => File::create(rt, path),
    }
}

/// Joins a socket. It fails where it would have to wait, since too many wait to be accepted there.
fn joined(rt: &HostRuntime, path: &str) -> io::Result<UnixStream> {
    let stream = UnixStream::from(mio::net::UnixStream::connect(rt, path)?);
    stream.set_nonblocking(false)?;
    Ok(stream)
}

/// What a call of the system gave, told as a session is told it. A fault is counted.
fn counted<T>(done: Result<T, Error>, failures: &mut u64) -> Result<T, Fault>
    requires { failures.old + 1 < 2 ^ 64 }
    ensures counted { Counts failures.old result failures.new }
    ensures told { MatchResult done (λ x. result ≡ Ok x) (λ error. result ≡ Err (fault_of_kind (error_kind error))) }
{
    match done {
        Ok(x) => Ok(x),
        Err(error) => {
            *failures += 1;
            Err(fault_of(&error))
        }
    }
}

fn fault_of(error: &Error) -> Fault
    ensures { result ≡ fault_of_kind (error_kind error.now) }
{
    match error.kind() {
        ErrorKind::NotFound => Fault::NotFound,
        ErrorKind::PermissionDenied => Fault::Denied,
        _ => Fault::Other,
    }
}
