//! Security descriptors and the access check (MS-DTYP 2.4.4 to 2.4.6 and 2.5.3): whether a token is granted a right,
//! what an opening grants, and descriptors as bytes.
//!
//! It stands on the SIDs of `dtyp_sid`, on the kinds of objects and their rights in `acct_codes`, and on `acct_base`
//! for lists. The layers above use that a contract sees a [`Token`] as the list of its SIDs, an [`Acl`] as the list of
//! its entries and a [`Descriptor`] as its fields, that [`is_granted`] is `granted` of one right, that [`opening`] is
//! `opened`, that [`read_descriptor`] gives `descriptor_of_bytes`, with the first refusal and its place, that it reads
//! the bytes of [`write_descriptor`] as the same descriptor, and that so it is with [`Parts`], which may lack an owner
//! and [`replaced`] those of a descriptor. [`laws`] has what follows of these definitions.
#![tactic(auto)]

mod ace;
mod check;
mod descriptor;
mod errors;
pub mod laws;
mod limits;
mod parts;
mod read;
mod write;

pub use ace::{Ace, AceKind, Acl, make_acl};
pub use check::{is_granted, opening};
pub use descriptor::{Descriptor, Token, make_token};
pub use errors::DescError;
pub use parts::{Parts, named_parts, replaced};
pub use read::{read_descriptor, read_parts};
pub use write::{has_few_aces, write_descriptor, write_parts};
