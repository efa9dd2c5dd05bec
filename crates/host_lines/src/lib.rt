//! Lines on the standard error, of which so many a minute are written.
//!
//! It stands on std alone. The layers above use [`Lines`] to say what befell a store, a door or a connection: a peer
//! that causes a line a thousand times a second fills no disk, and how many lines were left out is said. Which lines
//! are written is decided by one [`Tally`], of which is promised that it lets at most thirty lines of a minute through
//! and that each line which it leaves out is told once in a number, or isn't told yet. What the standard error does
//! with a line is told by no clause.
//!
//! In rooms: `tally` decides, `lines` writes, `laws` says what a run of lines comes to.
#![tactic(auto)]

pub mod laws;
mod lines;
mod tally;

pub use lines::Lines;
pub use tally::{LINES_A_MINUTE, Tally, Turn};
