//! Cursors over stubs of the transfer syntax NDR (C706, chapter 14): the primitives, their alignment and their
//! places. And, in specs/, what a shape is.
//!
//! It stands on nothing of ours. A stub is read by an `In` and written by an `Out`, which contracts see as a `Cursor`
//! and a `Written`. Each call of an `In` says the value and the place after it, or the bad place: `Short` exactly
//! where a primitive isn't whole, `Count` exactly where a number breaks its rule. Each call of an `Out` says the
//! bytes that it appends, and fails for nothing but memory.
#![tactic(auto)]

mod error;
mod input;
mod laws;
mod output;

pub use error::NdrError;
pub use input::In;
pub use laws::{bytes_are_smalls, one_reading, written_is_read_again};
pub use output::Out;
