//! The stubs of the account database's operations (MS-SAMR): calls and replies, read and written.
//!
//! It stands on the table of layouts of `acct_layouts`, and on `acct_stubs` for the layouts that both interfaces have
//! and for whole calls and replies; `ndr_types` and `ndr_core` have the shapes of fields. In specs/, `Interface`
//! defines the layouts that this interface has alone, in the order of the standard's IDL, and says which these are. The
//! layers above use that `read_call` gives the call exactly where the stub is served and a prefix of it spells the
//! call, and else why there is none; that `write_call` and `write_reply` give the one written spelling of each call
//! that some served stub spells, and of each reply that has its operation's shape; and that, by the laws, each is read
//! again as the same value whatever bytes follow, no stub spells two calls or two replies of one opnum, and no
//! definition runs out of memory.
#![tactic(auto)]

mod calls;
mod creations;
mod interface;
pub mod laws;
mod openings;
mod replies;

pub use acct_stubs::WireError;
pub use calls::{read_call, write_call};
pub use interface::Samr;
pub use replies::{read_reply, write_reply};

/// Running out of memory, which is the only fault of the writers here.
pub type NoMemory = std::alloc::AllocError;
