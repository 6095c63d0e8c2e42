//! Trace files: what the bytes of one say, whole or as a stream. Their sections, the image and the entries, stand in
//! `jlr_trace_entries`; which histories have a spelling is in `ranges`, the laws of streams are in `steady`.
//!
//! What is written is the one spelling of the history and read back as it was; no file is a prefix of another; a stream
//! is read as all its bytes are. Memory is taken for what is read, of a stream for one entry at a time.
#![tactic(auto)]

pub mod file;
pub mod ranges;
pub mod steady;
pub mod streamed;
pub mod window;
pub mod writing;
