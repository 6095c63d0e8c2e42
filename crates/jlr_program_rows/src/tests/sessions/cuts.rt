//! Lines that are no commands, however the bytes are cut.
//!
//! No list: the lines are longer than any that a list could show, and the bytes come in two pieces.
use super::player::told;
use super::settings::Setting;
use super::words::text_of;
use jlr_session::shell::SessionEnd;
use std::alloc::{AllocError, Global};
use std::test::Fail;

/// A line of 512 bytes, one of 513, `put 1`, an empty line, and a last `gc` without its end.
fn bytes(alloc: Global) -> Result<Vec<u8>, AllocError> {
    let mut bytes = Vec::new(alloc);
    bytes.extend_from_slice(&[b'x'; 512])?;
    bytes.extend_from_slice(b"\n")?;
    bytes.extend_from_slice(&[b'x'; 513])?;
    bytes.extend_from_slice(b"\nput 1\n\ngc")?;
    Ok(bytes)
}

/// The session of bytes that come in these pieces ends and is answered as it has to.
fn cut(alloc: Global, first: &[u8], rest: &[u8]) -> Result<(), Fail> {
    let setting = Setting::read(alloc, "").ok_or("setting")?;
    let got = setting.played(alloc, first, rest)?;
    if got.end != SessionEnd::Truncated
        || got.out.as_slice() != b"! 15\n! 16\n! 15\n! 15\n! 15\n".as_slice()
    {
        let label = "each cut is answered alike";
        return Err(told(alloc, label, text_of(first), text_of(got.out.as_slice())));
    }
    Ok(())
}

#[test]
fn each_cut_is_answered_alike(rt: HostRuntime) -> Result<(), Fail> {
    let bytes = bytes(rt.alloc())?;
    for place in 0..=bytes.len() {
        let (first, rest) = bytes.as_slice().split_at(place);
        cut(rt.alloc(), first, rest)?;
    }
    Ok(())
}

/// The replies to the lines that end among the first bytes, so many of them, and where the last of these lines ends.
fn replies_before(alloc: Global, count: usize) -> Result<(Vec<u8>, usize), AllocError> {
    let mut replies = Vec::new(alloc);
    let mut last = 0;
    for (end, reply) in [
        (513, "! 15\n"),
        (1_027, "! 16\n"),
        (1_033, "! 15\n"),
        (1_034, "! 15\n"),
    ] {
        if end <= count {
            replies.extend_from_slice(reply.as_bytes())?;
            last = end;
        }
    }
    Ok((replies, last))
}

/// How the session of the first bytes, so many of them, has to end and to be answered: an unfinished line is refused at
/// its end.
fn wanted(alloc: Global, count: usize) -> Result<(SessionEnd, Vec<u8>), AllocError> {
    let (mut replies, last) = replies_before(alloc, count)?;
    let unfinished = count.saturating_sub(last);
    if unfinished == 0 {
        return Ok((SessionEnd::End, replies));
    }
    replies.extend_from_slice(if unfinished > 512 {
        b"! 16\n"
    } else {
        b"! 15\n"
    })?;
    Ok((SessionEnd::Truncated, replies))
}

/// The session of a prefix of the bytes ends and is answered as it has to.
fn prefix(alloc: Global, bytes: &[u8]) -> Result<(), Fail> {
    let setting = Setting::read(alloc, "").ok_or("setting")?;
    let got = setting.played(alloc, b"", bytes)?;
    let (end, replies) = wanted(alloc, bytes.len())?;
    if got.end != end || got.out.as_slice() != replies.as_slice() {
        let label = "each prefix is answered line by line";
        return Err(told(alloc, label, text_of(bytes), text_of(got.out.as_slice())));
    }
    Ok(())
}

#[test]
fn each_prefix_is_answered_line_by_line(rt: HostRuntime) -> Result<(), Fail> {
    let bytes = bytes(rt.alloc())?;
    for place in 0..=bytes.len() {
        let (first, _) = bytes.as_slice().split_at(place);
        prefix(rt.alloc(), first)?;
    }
    Ok(())
}
