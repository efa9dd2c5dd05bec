//! The shapes of stubs that calls and replies share (C706, chapter 14): handles, texts, SIDs, lists of these and of
//! numbers, sets of privileges, lists of accounts, of accounts as they are displayed, of the names of privileges, of
//! translated names and SIDs, and of the domains that these refer to, security descriptors by their bytes, and pointers
//! to texts, sets of privileges and descriptors.
//!
//! It stands on `ndr_core` for primitives and for what a shape is, on `acct_calls` and `dtyp_sid` for the values. Each
//! shape is a definition in specs/, by its fields as they stand in the standard's IDL. The layers above use that each
//! `read_` call gives the value at the cursor and the place after it, or the first field in reading order that has no
//! reading (`Short` or `Count` with its place) exactly where there is none; that each `write_` call appends the
//! value's spelling and fails for nothing but memory; and that, by the laws, what is written is read again whatever
//! stands after it, no stub has two readings, and what some stub spells can be written.
#![tactic(auto)]

mod accounts;
mod array;
mod descriptors;
mod displays;
mod domains;
mod flagged;
mod handle;
mod laws;
mod lists;
mod members;
mod number;
mod part;
mod pointers;
mod privilege_names;
mod privileges;
mod sid;
mod smalls;
mod text;
mod translations;

pub use accounts::{read_rid_names, write_rid_names};
pub use array::{
    read_array, read_heads, read_list, read_list_head, read_list_tail, read_tails, write_heads,
    write_list, write_list_head, write_list_tail, write_tails,
};
pub use descriptors::{
    read_descriptor, read_descriptor_pointer, write_descriptor, write_descriptor_pointer,
};
pub use displays::{read_display_rows, write_display_rows};
pub use domains::{read_referenced, read_referenced_pointer, write_referenced};
pub use handle::{read_handle, write_handle};
pub use laws::shapes_are_lawful;
pub use lists::{
    read_rid_list, read_sid_list, read_text_list, write_rid_list, write_sid_list, write_text_list,
};
pub use part::Embedded;
pub use pointers::{
    read_privilege_set_pointer, read_text_pointer, write_privilege_set_pointer, write_text_pointer,
};
pub use privilege_names::{read_privilege_names, write_privilege_names};
pub use privileges::{read_privilege_set, write_privilege_set};
pub use sid::{read_sid, write_sid};
pub use text::{read_text, write_text};
pub use translations::{
    read_flagged_names, read_flagged_sids, read_sid_refs, read_translated_names,
    read_translated_sids, write_flagged_names, write_flagged_sids, write_sid_refs,
    write_translated_names, write_translated_sids,
};

/// Running out of memory, which is the only fault of the writers here.
pub type NoMemory = std::alloc::AllocError;
