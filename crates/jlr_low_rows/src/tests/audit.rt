//! Trace files, verdicts, explanations and figures, as rows that change a file. A file for each topic.
mod changes;
mod copies;
mod figures;
mod older;
mod player;
mod reading;
mod streams;
mod verdicts;
mod watching;
