//! Tests of what lies below the core or beside it: small values and the machine's data, devices and the fence before
//! them, the table of files and sockets, and the cleaner over it; the plain program (`plain`); trace files and audits
//! (`audit`).
//!
//! They stand in a crate of their own, over public calls, so that what they test is proved once and not a second time
//! with them.
#![tactic(auto)]

#[cfg(test)]
mod tests;
