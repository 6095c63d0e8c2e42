//! Lists of rows of words: a call, an arrow, and what it gives. What is expected comes from the description of the
//! asks.
//!
//! `weak 2 1 -> handle 3` makes a weak reference to what handle 2 holds, on the queue that handle 1 holds, and wants
//! handle 3. The words are those of `jlr_words`. Guards hold numbers: `opened 5` hands 5 in. `by_hand` and `by_itself`
//! say who settles from there on, and `settle` settles. In lists of files `open_read`, `create` and `connect` open
//! what the next script says, and `read 1 4`, `write 1 00ff` and `close 1` call it.
//!
//! Each list begins with `== ` and its name, and has a heap of its own, of 16 cells and one resource.
mod asks;
mod cleaning;
mod files;
mod lists;
mod objects;
mod opening;
mod play;
mod results;
mod uses;
