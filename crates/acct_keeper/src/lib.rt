//! Streams and keepers: what the server reads and writes outside, in the traits by which the layers above see it.
//!
//! A source gives bytes and a sink takes them, piece by piece; a keeper holds the account database as pairs of bytes
//! while the server doesn't run. Each stands here as a trait and in memory. The crate stands on `acct_base`. The
//! layers above use the contracts of
//!
//! - [`Source`] and [`Sink`], by which a read or a write that fails moves nothing;
//! - [`read_whole`] and [`write_all`], which say which bytes were read, and which were written also after a fault;
//! - [`Keeper`], by which a load gives the pairs by strictly ascending key, and a commit makes all its changes in
//!   order or none.
//!
//! Of each the count of faults is one more after a call that failed, and after any other as it was. Links in memory
//! count their calls and copy their bytes as the streams in memory do ([`one_more`], [`copy_front`]).
#![tactic(auto)]

mod keeper;
mod memory_keepers;
mod memory_streams;
mod pairs;
mod places;
mod streams;
mod whole;
mod writing;

pub use keeper::{KeepError, Keeper};
pub use memory_keepers::{MemoryKeeper, SteadyKeeper};
pub use memory_streams::{
    MemorySink, MemorySource, SteadySink, SteadySource, copy_front, one_more,
};
pub use pairs::{Change, Pair};
pub use places::is_ascending;
pub use streams::{Failed, Sink, Source};
pub use whole::{WholeError, read_whole};
pub use writing::write_all;
