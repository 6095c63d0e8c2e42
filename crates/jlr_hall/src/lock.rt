//! How the lock of a hall is taken for an ask.
use std::hint::spin_loop;
use std::sync::{Mutex, MutexGuard, Wait};

/// How often a lock is tried before a thread sleeps for it. An ask holds it for less than a microsecond; a thread that
/// sleeps leaves its processor idle, to which the system then moves others.
const TRIES: u32 = 100;

/// Takes a lock, without sleep where it is given up soon.
pub(crate) fn take<'a, T, W: Wait>(lock: &'a Mutex<T>, rt: &W) -> MutexGuard<'a, T> {
    for _ in 0..TRIES {
        if let Some(guard) = lock.try_lock() {
            return guard;
        }
        spin_loop();
    }
    lock.lock(rt)
}
