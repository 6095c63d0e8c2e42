//! Calls on devices and their resources.
//!
//! Bytes are numbers, a word each. A read goes to a buffer of four bytes that are 9 before, and its answer shows them
//! too. `finish` ends the resource that was opened last.
use super::calls::Got;
use super::words::parsed;
use jlr_device::guarded::{
    guarded_connect, guarded_finish, guarded_open, guarded_read, guarded_write,
};
use jlr_device::{Device, Mode, Resource};
use jlr_types::Fault;
use std::alloc::Global;
use std::str::SplitWhitespace;

mod clients;
mod fences;
mod real;
mod scripts;

// ---- Calls

fn open<D: Device>(
    device: &mut D,
    opened: &mut Option<D::Res>,
    mode: Mode,
    words: &mut SplitWhitespace<'_>,
) -> Option<Got>
where
    D::Res: Drop,
{
    kept(opened, guarded_open(device, mode, path(words)))
}

// Keeps what was opened, in place of what was open.
fn kept<R: Drop>(opened: &mut Option<R>, outcome: Result<R, Fault>) -> Option<Got> {
    let outcome = match outcome {
        Ok(resource) => {
            drop(opened.replace(resource));
            Ok(())
        }
        Err(fault) => Err(fault),
    };
    Some(Got::Opened(outcome))
}

// As many bytes as are asked for, at most four.
fn read<D: Device>(device: &D, resource: &mut D::Res, count: usize) -> Got {
    let mut buf = [9u8; 4];
    let count = guarded_read(device, resource, &mut buf[..count.min(4)]);
    Got::Read(count, buf)
}

fn write<D: Device>(
    alloc: Global,
    device: &D,
    resource: &mut D::Res,
    words: &mut SplitWhitespace<'_>,
) -> Option<Got> {
    let bytes = bytes(alloc, words)?;
    let wrote = guarded_write(device, resource, bytes.as_slice());
    drop(bytes);
    Some(Got::Wrote(wrote))
}

fn finish<R: Resource + Drop>(opened: &mut Option<R>) -> Option<Got> {
    match opened.take() {
        Some(resource) => Some(Got::Ended(guarded_finish(resource))),
        None => None,
    }
}

// What a call on a resource is answered; none where the words are no call, or none is open.
fn on_resource<D: Device>(
    alloc: Global,
    device: &D,
    opened: &mut Option<D::Res>,
    name: &str,
    words: &mut SplitWhitespace<'_>,
) -> Option<Got>
where
    D::Res: Drop,
{
    if name == "finish" {
        return finish(opened);
    }
    match opened {
        Some(resource) => on_open(alloc, device, resource, name, words),
        None => None,
    }
}

fn on_open<D: Device>(
    alloc: Global,
    device: &D,
    resource: &mut D::Res,
    name: &str,
    words: &mut SplitWhitespace<'_>,
) -> Option<Got> {
    match name {
        "read" => Some(read(device, resource, parsed(words)?)),
        "write" => write(alloc, device, resource, words),
        "failed_calls" => Some(Got::Number(resource.failures())),
        _ => None,
    }
}

// What a call on a device or its resource is answered. A call with no path has the empty one.
fn on_device<D: Device>(
    alloc: Global,
    device: &mut D,
    opened: &mut Option<D::Res>,
    name: &str,
    words: &mut SplitWhitespace<'_>,
) -> Option<Got>
where
    D::Res: Drop,
{
    match name {
        "open_to_read" => open(device, opened, Mode::Read, words),
        "open_to_write" => open(device, opened, Mode::Write, words),
        "connect" => kept(opened, guarded_connect(device, path(words))),
        "failed_opens" => Some(Got::Number(device.failures())),
        _ => on_resource(alloc, device, opened, name, words),
    }
}

// ---- Words

fn path<'a>(words: &mut SplitWhitespace<'a>) -> &'a str {
    words.next().unwrap_or("")
}

// All bytes that are left.
fn bytes(alloc: Global, words: &mut SplitWhitespace<'_>) -> Option<Vec<u8>> {
    let mut bytes = Vec::new(alloc);
    match push_all(&mut bytes, words) {
        Some(()) => Some(bytes),
        None => None,
    }
}

fn push_all(bytes: &mut Vec<u8>, words: &mut SplitWhitespace<'_>) -> Option<()> {
    for word in words {
        bytes.push(word.parse().ok()?).ok()?;
    }
    Some(())
}
