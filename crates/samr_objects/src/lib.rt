//! The operations on the objects of the account database (MS-SAMR): domains are looked for, listed and opened, accounts
//! looked for, listed, displayed, opened, created, shown, set and deleted, and RIDs turned into SIDs.
//!
//! It stands on the rows of `acct_rows` and on `acct_rules`, which says what an operation is. For each operation there
//! is a definition in specs/, which reads as its section of the standard: its conditions in order, each with its
//! status, and what is planned where none fails. The layer above uses that each function answers what its definition
//! decides on the rows, the object of the handle that was brought, and the arguments, that each operation is right and
//! keeps the rows, and that an account that was created is found (`laws`). An opening is appended to the conditions by
//! the machine.
#![tactic(auto)]

mod accounts;
mod creations;
mod deletions;
mod displays;
mod domains;
mod enumerations;
mod found;
pub mod laws;
mod lookups;
mod naming;
mod plans;
mod queries;
mod settings;

pub use accounts::{open_alias, open_group, open_user};
pub use creations::{create_alias, create_group, create_user};
pub use deletions::{delete_alias, delete_group, delete_user};
pub use displays::query_display;
pub use domains::{list_domains, look_domain, open_domain, rid_to_sid};
pub use enumerations::{list_aliases, list_groups, list_users};
pub use lookups::{look_ids, look_names};
pub use queries::{query_alias, query_domain, query_group, query_user};
pub use settings::{Field, set_alias, set_domain, set_field, set_group, set_user};
