//! The names of accounts: lists of UTF-16 units, their simple case folding, equality and validity. And calls and
//! replies as plain data, with the values that they are made of: handles, what an information class shows, the bytes of
//! a security descriptor, and lists of SIDs, numbers, privileges, accounts, members, domains, translated entries and
//! accounts as they are displayed.
//!
//! It stands on the kinds of objects of `acct_codes`, the list type of `acct_base`, the SIDs of `dtyp_sid`, and the
//! case folding of `unicode`, of whose table `ucd_case` and `ucd_table` have the lemmas that the proofs cite. The
//! layers above use that a contract sees a `Name` as the list of its units, and each other list as the list of its
//! elements, that `same` is equality of the folded code points and an equivalence, and that `is_valid` is the rules
//! for names of accounts; which names and SIDs the account domain may have (`domain`); that [`samr_call`] and
//! [`lsa_call`] are the calls of the two interfaces; and that a copy of a call is equal to it.
#![tactic(auto)]

mod bytes;
mod calls;
mod code_points;
mod copies;
pub mod domain;
mod folding;
mod handle;
mod info;
pub mod laws;
mod lists;
mod name;
mod names;
mod replies;
mod validity;

pub use bytes::Bytes;
pub use calls::{Args, Call, Face, lsa_call, samr_call};
pub use code_points::{FirstPoint, first_point};
pub use handle::{Handle, ZERO_HANDLE};
pub use info::Info;
pub use lists::{
    DisplayRow, DisplayRows, NamedList, Places, Privilege, PrivilegeSet, ReferencedDomain, RidBits,
    RidBitsList, RidName, RidNames, Rids, SidRef, SidRefs, Sids, Translated, TranslatedName,
    TranslatedSid,
};
pub use name::Name;
pub use names::Names;
pub use replies::{Outs, Reply};

/// Running out of memory, which is the only fault of the calls here.
pub type NoMemory = std::alloc::AllocError;
