//! The program's command lines and its faults.
mod arguments;
mod faults;
