//! Sessions spelled out.
mod devices;
mod heap;
mod jobs;
mod limits;
mod lines;
mod play;
mod row;
mod script;
mod seat;
mod serving;
