//! A server: clients that come one after the other, each at a seat of one hall, whose asks are one history. A watcher
//! tells of clients that are gone and of who asks the server to end. It relies on the hall, on the definition of a
//! session, and on whoever gives the clients. Memory is taken for the seats, the threads and each client.
//! `server::serve_over` carries the headline for a server.
#![tactic(auto)]

mod accepts;
mod clients;
pub mod server;
pub mod worked;

pub use jlr_hall as hall;
pub use jlr_hall::Book;
