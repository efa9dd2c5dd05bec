//! Sorted tables, and what is known of one row of the account database or of rows of one kind: what a row is, the pair
//! of bytes that it is stored as, and tables of rows with their indexes. Nothing here knows rows of two kinds together.
//!
//! It stands on the names of `acct_calls`, the kinds of `acct_codes`, the SIDs of `dtyp_sid`, the descriptors of
//! `dtyp_access`, the pairs of `acct_keeper`, the list type of `acct_base` and the case folding of `unicode`. The
//! layers above use that a contract sees a [`Table`] as the list of its values, whose keys strictly rise, and for how
//! many more values there is room: a look-up is the value at a key or a filter over that list, a change is the list
//! with the value in its place or without it, and no change takes memory. Two tables of the same values by two orders
//! are kept side by side by whoever wants both. `acct_rows` uses besides that a row has one pair and that of a pair the
//! row is read which it spells exactly ([`row_pair`], [`read_row`], [`laws`]), whether a row breaks a rule by itself
//! ([`breaks_alone`]), and that a contract sees rows of one kind ([`RowTable`], [`Unsorted`], [`Accounts`],
//! [`Members`], [`Aliases`]) as their list by strictly ascending key. A look-up is its filter over that list. That an
//! index agrees with its list is the invariant of the type that has both, and no public clause mentions one.
//!
//! Values by key: `order` says how, `table` keeps them. Of a row: `object` and `row` say what there is, `copies` copies
//! it; `fields` and `reading` read pairs, `writing` writes them, `rules` has the rules of a row by itself. Of rows of
//! one kind: `keyed` is the table, `unsorted` has the rows of one before they are sorted, `keys` has the keys;
//! `accounts` with `names` and `primaries`, `groups`, and `aliases` with `membership` have indexes, of entries as
//! `entries` makes them; `ranges` lends rows whose keys are a range, and `naming` has the keys of rows that name an
//! account.
#![tactic(auto)]

mod accounts;
mod aliases;
mod copies;
mod entries;
mod fields;
mod folding;
mod groups;
mod keyed;
mod keys;
pub mod laws;
mod membership;
mod names;
mod naming;
mod object;
mod order;
mod primaries;
mod ranges;
mod reading;
mod row;
mod rules;
mod table;
mod unsorted;
mod writing;

pub use accounts::Accounts;
pub use aliases::Aliases;
pub use groups::{ByUser, Members};
pub use keyed::RowTable;
pub use naming::push_key;
pub use object::Object;
pub use order::{Fronts, Order, Test, Whole};
pub use reading::{read_next_out, read_row};
pub use row::{
    ACCOUNT_DOMAIN, AccountRow, AliasRow, BUILTIN_DOMAIN, DescRow, DomainRow, Held, LsaRow,
    MOST_NEXT_OUT, MemberRow, OUT_CHANGED, OUT_MADE, OUT_REMOVED, OutRow, Privileges, Row, RowKey,
};
pub use rules::breaks_alone;
pub use table::{Table, find_key, place_of, sort};
pub use unsorted::Unsorted;
pub use writing::{Paired, format_pair, key_bytes, next_out_pair, row_key, row_pair};
