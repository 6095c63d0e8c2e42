//! Waits that end where a client goes.
use libc::net::{POLLERR, POLLHUP, POLLNVAL, poll};
use libc::types::pollfd;
use std::os::fd::RawFd;

/// What is wanted of a descriptor.
#[derive(Clone, Copy, PartialEq, Eq, Debug)]
pub enum Way {
    Read,
    Write,
}

/// Waits until a read or a write of a descriptor would not wait, or the client of a connection is gone. Whether the
/// first came. A client that only sends no more is not gone. Without a client nothing is waited for here.
pub fn is_ready(descriptor: RawFd, way: Way, client: Option<RawFd>) -> bool {
    let Some(client) = client else {
        return true;
    };
    let events = match way {
        Way::Read => libc::net::POLLIN,
        Way::Write => libc::net::POLLOUT,
    };
    let mut both = [asked(descriptor, events), asked(client, 0)];
    for _ in 0..u64::MAX {
        if poll(&mut both, -1) < 0 {
            if os::errno() == libc::EINTR {
                continue;
            }
            return true;
        }
        let [resource, client] = both;
        if resource.revents != 0 {
            return true;
        }
        if client.revents & (POLLHUP | POLLERR | POLLNVAL) != 0 {
            return false;
        }
    }
    true
}

fn asked(fd: RawFd, events: i16) -> pollfd {
    pollfd {
        fd,
        events,
        revents: 0,
    }
}
