//! The program's ends, and the histories that it saves. The expected texts come from the descriptions of the
//! protocol and of trace files.
mod ends;
mod saves;
mod sentences;
mod verdicts;
