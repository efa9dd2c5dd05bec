//! The words that every crate of the account server cites: the list type, a few calls on bytes, and a reader of fields.
//!
//! It stands on nothing of ours. The layers above use that a contract sees a `Seq` as the list of its values, however
//! the heap holds them, so that a struct with such a field is plain data; and the readers of stored rows and of PDUs
//! that [`Fields`] gives what stands at the beginning of the bytes, or [`Unread`] where they spell nothing.
#![tactic(auto)]

mod bytes;
mod fields;
mod seq;
mod words;

pub use bytes::{front_of, front_u16, front_u32, is_same, push_u16, push_u32, rest_of};
pub use fields::{Fields, Unread};
pub use seq::{Seq, extended, kept};
pub use words::{decimal, decimal_of, parted};
