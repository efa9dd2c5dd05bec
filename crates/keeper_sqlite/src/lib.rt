//! A keeper in a file of SQLite.
//!
//! It stands on the contract of `acct_keeper`. The layers above use what it says of the keeper's count of faults; what
//! the file holds is told by no clause. The file has one table, `pairs`, with the columns `key` and `value`, both
//! bytes:
//!
//! ```text
//! sqlite3 FILE 'SELECT hex(key), hex(value) FROM pairs ORDER BY key'
//! ```
//!
//! A commit that failed may have left its changes in the file. So the keeper reads the old values of its keys first,
//! and after such a commit opens the file anew and puts them back, before it answers; where that fails too, each later
//! call tries it first.
//!
//! In rooms: `files` makes the file for its owner alone, `requests` has the statements over an open file, `keeper` the
//! keeper, `keys` the keys of a change in words.
#![tactic(auto)]

mod files;
mod keeper;
mod keys;
mod requests;

pub use keeper::SqliteKeeper;
