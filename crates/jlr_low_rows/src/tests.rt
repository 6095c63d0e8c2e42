//! A module for each topic. What is expected comes from the description of the calls, or is written by hand.
mod audit;
mod calls;
mod cleaner;
mod device;
mod machine;
mod plain;
mod table;
mod words;
