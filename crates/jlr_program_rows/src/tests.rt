//! A module for each topic. The expected texts come from the descriptions of the protocol and of trace files.
mod command_line;
mod lines;
mod manual;
mod program;
mod sessions;
