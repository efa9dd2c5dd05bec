//! Security identifiers (MS-DTYP 2.4.2): their values, order, texts and bytes.
//!
//! It stands on the calls on bytes of `acct_base`. The layers above use that a contract sees a `Sid` as its authority
//! and the list of its sub-authorities, that `==` and the order are those of that value, that `parse_text` reads
//! exactly the texts of the grammar and `text` writes one of them, that `from_bytes` reads what `to_bytes` writes, and
//! that [`push_hexadecimal`] adds so many digits of a number.
#![tactic(auto)]

mod bytes;
mod errors;
pub mod laws;
mod order;
mod reading;
mod sid;
mod text;

pub use errors::{BadText, BytesError, SidError};
pub use reading::parse_text;
pub use sid::{SID_MAX_SUB_AUTHORITIES, SID_REVISION, Sid};
pub use text::push_hexadecimal;
