//! What the stubs of both interfaces have: the handle and the layouts that both know, whole calls, and whole replies
//! with their status.
//!
//! It stands on the table of layouts of `acct_layouts`, and on `ndr_types` and `ndr_core` for the shapes of fields. An
//! interface adds the codecs of the layouts that it has alone (`Interface`, in specs/ the record `Wire`), and owes for
//! these what `Lawful` says. The layers above use that for each such interface `read_call` gives the call exactly where
//! the stub is served and a prefix of it spells the call, and else why there is none; that `write_call` and
//! `write_reply` give the one written spelling; and that, by the laws, each is read again as the same value whatever
//! bytes follow, no stub spells two calls or two replies of one opnum, and no definition runs out of memory.
#![tactic(auto)]

mod arguments;
mod calls;
mod displayed;
mod errors;
mod infos;
mod interface;
pub mod laws;
mod members;
mod numbers;
mod outputs;
mod replies;
mod security;
mod server_name;

pub use calls::{read_call, write_call};
pub use errors::WireError;
pub use interface::Interface;
pub use replies::{read_reply, write_reply};
pub use server_name::{read_server_name, write_server_name};

/// Running out of memory, which is the only fault of the writers here.
pub type NoMemory = std::alloc::AllocError;
