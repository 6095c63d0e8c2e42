//! Who gives a server its clients, and who tells of those that go: two traits, and a listener on a Unix socket whose
//! file this program alone makes and removes. It relies on the library's sockets, poll and epoll. Memory is taken for
//! each client.
#![tactic(auto)]

pub mod acceptor;
pub mod listener;
pub mod socket_file;
pub mod watch;
