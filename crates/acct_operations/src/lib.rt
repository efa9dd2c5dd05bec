//! The operations of the two interfaces (MS-SAMR, MS-LSAD, MS-LSAT): the table of all that are built, and the rules of
//! those that connect and close, and that read and set security descriptors, whatever object they are of.
//!
//! It stands on `acct_rules`, which says what an operation is, and on the crates that decide the others. The layer
//! above uses the table alone: `work_of` finds an operation by its interface and opnum, if there is one, and
//! `profile_of` and `decide` are its two halves. Whatever the layer above says of a call it says of an operation of the
//! table, and what it needs of each it has from the laws `operations_are_right` and `operations_keep_rows`. One more
//! operation is one more `Work`, with its line in each list of `table`, of its definition and of `Each`.
#![tactic(auto)]

mod closings;
mod laws;
mod openings;
mod security;
mod table;

pub use laws::{
    calls_have_operations, operations_are_frugal, operations_are_right, operations_keep_rows,
};
pub use table::{Work, decide, profile_of, work_of};
