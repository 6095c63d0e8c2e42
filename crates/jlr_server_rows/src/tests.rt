//! Clients as text. The expected texts come from the description of the protocol and of the machine.
mod accepts;
mod clients;
mod devices;
mod gates;
mod listeners;
mod loops;
mod player;
mod removals;
mod seats;
