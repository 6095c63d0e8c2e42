//! Lists of events and what they leave in the book. What is expected comes from the description of the book.
mod cuts;
mod play;
