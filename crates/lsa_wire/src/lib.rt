//! The stubs of the operations of the policy, its accounts and rights, and of translation (MS-LSAD, MS-LSAT): calls and
//! replies, read and written.
//!
//! It stands on the table of layouts of `acct_layouts`, on `acct_stubs` for what the stubs of both interfaces have, and
//! on `ndr_types` and `ndr_core` for the shapes of their fields. In specs/, `Arguments` and `Interface` define the
//! fields of the layouts that this interface has alone, of calls and of replies, in the order of the standard's IDL.
//! The layers above use that `read_call` gives the call exactly where the stub is served and a prefix of it spells the
//! call, and else why there is none; that `write_call` and `write_reply` give the one written spelling of each call
//! that some served stub spells, and of each reply that has its operation's shape; and that, by the laws, each is read
//! again as the same value whatever bytes follow, no stub spells two calls or two replies of one opnum, and no
//! definition runs out of memory.
#![tactic(auto)]

mod arguments;
mod calls;
mod interface;
pub mod laws;
mod opening;
mod outputs;
mod replies;

pub use acct_stubs::WireError;
pub use calls::{read_call, write_call};
pub use interface::Lsa;
pub use replies::{read_reply, write_reply};

/// Running out of memory, which is the only fault of the writers here.
pub type NoMemory = std::alloc::AllocError;
