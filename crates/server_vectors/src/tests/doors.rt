// Requests, sessions over a link in memory, entrances that are asked for the doors of listeners, serving over doors in
// memory: tables, two links that wait for each other, and clients of which a part fails; and the words of the rows. And
// the doors themselves: those in memory, those at sockets of this process, and what these do where something fails or
// nothing comes.
mod clients;
mod closings;
mod faults;
mod listeners;
mod meeting;
mod memory;
mod requests;
mod sessions;
mod sockets;
mod stubs;
mod tables;
mod waiting;
pub mod words;
