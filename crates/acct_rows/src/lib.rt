//! The rows of the account database: domains, accounts, members of groups and of aliases, accounts of the policy,
//! security descriptors of objects, and changes of accounts that wait to be told to a program.
//!
//! It stands on `acct_tables` for what a row is, for its pair, and for the table of each list with its indexes; on the
//! names of `acct_calls`, the kinds of `acct_codes`, the SIDs of `dtyp_sid`, the descriptors of `dtyp_access`, the
//! pairs of `acct_keeper` and the list type of `acct_base`. The layers above use that a contract sees `Rows` as seven
//! lists by strictly ascending key and the number that the next change takes, that each look-up is its filter over
//! them, that a plan changes the rows at its keys and nothing else, and what sound rows are. A store keeps rows as
//! pairs of bytes (`pairs`): sound rows have their pairs, a plan's changes take these to the pairs of the rows after
//! it, and of pairs that break no rule the same rows are read again; else the smallest broken key is told. What a row
//! is comes of the crate below, and is handed on.
#![tactic(auto)]

pub mod laws;
pub mod pairs;
mod plan;
mod rows;
mod seed;

pub use acct_tables::{
    ACCOUNT_DOMAIN, AccountRow, AliasRow, BUILTIN_DOMAIN, ByUser, DescRow, DomainRow, Held, LsaRow,
    MOST_NEXT_OUT, MemberRow, OUT_CHANGED, OUT_MADE, OUT_REMOVED, Object, OutRow, Privileges, Row,
    RowKey, push_key,
};
pub use pairs::{PairsError, is_old, migration};
pub use plan::Plan;
pub use rows::Rows;
