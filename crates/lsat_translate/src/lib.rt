//! The translation of names into SIDs and of SIDs into names (MS-LSAT 3.1.4): LsarLookupNames, LsarLookupNames2 and
//! LsarLookupNames3, LsarLookupSids and LsarLookupSids2.
//!
//! It stands on the rows of `acct_rows` and on `acct_rules`, which says what an operation is; `indexmap` collects the
//! domains that are referred to. In specs/ a name and a SID each have one match in the rows, or none (`Lookups`); the
//! domains that are referred to and the entries are computed from the list of the matches (`Translations`). The later
//! operations show the same matches: LsarLookupNames3 by their SIDs, the others as the first ones do. The layer above
//! uses that each function answers what its definition decides on the rows, the object of the handle that was brought,
//! and the arguments, and that each operation is right and keeps the rows (`laws`).
#![tactic(auto)]

mod entries;
mod known;
pub mod laws;
mod matches;
mod names;
mod sids;
mod translations;

pub use known::{Known, WellKnown};
pub use matches::Match;
pub use translations::{look_names, look_names2, look_names3, look_sids, look_sids2};
