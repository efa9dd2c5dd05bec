//! The operations on the members of groups and aliases of the account database (MS-SAMR 3.1.5.8, 3.1.5.9): a member is
//! added, removed, and the members are listed; the groups of a user and the aliases of some SIDs are looked for.
//!
//! It stands on the rows of `acct_rows` and on `acct_rules`, which says what an operation is. For each operation there
//! is a definition in specs/, which reads as its section of the standard: its conditions in order, each with its
//! status, and what is planned where none fails. The layer above uses that each function answers what its definition
//! decides on the rows, the object of the handle that was brought, and the arguments, and that each operation is right
//! and keeps the rows (`laws`). A member of a group is a user of the account domain; a member of an alias is a SID,
//! whether or not an account has it.
#![tactic(auto)]

mod aliases;
mod groups;
pub mod laws;

pub use aliases::{add_alias_member, alias_members, alias_membership, remove_alias_member};
pub use groups::{add_group_member, group_members, remove_group_member, user_groups};
