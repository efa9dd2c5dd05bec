//! The policy's privileges and rights, and the operations that look for them and list them, that query the policy, and
//! that make, open, change and delete its accounts (MS-LSAD 3.1.4.4, 3.1.4.5, 3.1.4.8, 3.1.4.9).
//!
//! It stands on the rows of `acct_rows` and on `acct_rules`, which says what an operation is. For each operation there
//! is a definition in specs/, which reads as its section of the standard: its conditions in order, each with its
//! status, and what is planned where none fails. The layer above uses that each function answers what its definition
//! decides on the rows, the object of the handle that was brought, and the arguments, and that each operation is right
//! and keeps the rows (`laws`). The table of privileges and that of rights stand once, in specs/; names are compared as
//! those of accounts are.
#![tactic(auto)]

mod account_objects;
mod accounts;
mod found;
mod held;
mod held_rights;
mod holders;
mod holdings;
pub mod laws;
mod listings;
mod logon_rights;
mod names;
mod policy;
mod privileges;
mod rights;
mod rights_changes;

pub use account_objects::{create_account, delete_account, open_account};
pub use accounts::{account_privileges, system_access};
pub use found::{account_of, account_of_sid, guarded, object_of_sid};
pub use held_rights::account_rights;
pub use holders::accounts_with_right;
pub use holdings::{add_privileges, remove_privileges, set_system_access};
pub use listings::{list_accounts, list_privileges};
pub use logon_rights::LogonRight;
pub use names::{privilege_name, privilege_value};
pub use policy::query_policy;
pub use privileges::KnownPrivilege;
pub use rights::{AccountRight, has_privilege};
pub use rights_changes::{add_rights, remove_rights};
