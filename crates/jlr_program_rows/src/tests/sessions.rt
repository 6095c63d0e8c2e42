//! Sessions as lists of text. The expected texts come from the description of the protocol and of the machine.
mod arrays;
mod cleaners;
mod cuts;
mod files;
mod histories;
mod integers;
mod names;
mod objects;
mod player;
mod references;
mod scripts;
mod settings;
mod words;
