//! The heap for a program in C, as a static library: refheap.h is its manual. Each function is one call of
//! `jlr_embed`, and its contract says which event of the heap it is and how the answer is told. Nothing is required of
//! a caller but what its header says: a handle that was zeroed once, one call at a time, and pointers that may be
//! written through. It takes no lock, starts no thread, waits for nothing and calls nothing back. Memory is taken by
//! `refheap_open`, and by `refheap_prepare`, `refheap_array`, `refheap_bind`, `refheap_name`, `refheap_note` and
//! `refheap_failure`. It carries the promise that a call is an `IsStep` of the heap behind the handle.
#![tactic(auto)]

mod cleaning;
mod collecting;
mod layout;
mod life;
mod names;
mod objects;
mod references;
