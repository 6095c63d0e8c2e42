//! Events, lines, and sessions of lines. What is expected comes from the description of the asks and of the protocol.
mod events;
mod session;
mod streams;
mod wire;
