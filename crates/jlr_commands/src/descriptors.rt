//! Whether the system lets the program open as much as its limits ask for.
use jlr_types::Limits;
use libc::types::rlimit;

/// The descriptors that a server has beside those of its clients and its resources: the standard three, two sockets and
/// four of its watcher, and a file that is saved.
const OWN: u64 = 10;

/// The descriptors that a client takes: its connection, one for its replies and one to end it.
const FOR_CLIENT: u64 = 3;

/// Says on the standard error where the system allows fewer open files than these limits ask for.
pub(crate) fn warn_of_few(rt: &HostRuntime, limits: Limits) {
    let needed = OWN + FOR_CLIENT * u64::from(limits.sessions) + u64::from(limits.resources);
    let mut allowed = rlimit {
        rlim_cur: 0,
        rlim_max: 0,
    };
    if libc::getrlimit(libc::RLIMIT_NOFILE, &mut allowed) != 0 {
        return;
    }
    if allowed.rlim_cur < needed {
        let _ = eprintln!(rt;
            "refheap: {needed} files may have to be open at once, and {} may be: see ulimit -n",
            allowed.rlim_cur
        );
    }
}
