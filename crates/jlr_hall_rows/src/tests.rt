//! Asks of seats as text. The expected texts come from the description of the machine.
mod book;
mod called_off;
mod cuts;
mod missing;
mod turns;
