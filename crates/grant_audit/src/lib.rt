//! The grant audit: for each call of a history whose handle was let pass, which event gave the handle, which access was
//! granted there, and which bits of it the call needed.
//!
//! It stands on `acct_machine`, whose definitions of states, steps and legal histories say what a trace is, and whose
//! machine runs the history again; on `acct_config`, `acct_rows` and `acct_calls` for what a history begins with and
//! is made of, and on `acct_keeper`, whose trait the keeper of that second machine has, which keeps nothing. It knows
//! no operation and no interface.
//!
//! The layer above uses [`trace_of`]. Of a legal history, from the configuration and the rows where it began, it gives
//! the traces of the definition `traces`, which speaks of states alone: one for each call that brings a handle and
//! passes, in order, whatever came of the call. The law [`traces_are_right`] says why a trace is an answer: one event
//! of the history gave that handle and no other did, it came before the call, the access check granted there what the
//! trace says, and that has each bit that the call needed. Each handle after a legal history has such an origin
//! ([`handles_have_origins`]).
//!
//! In rooms: `trace` is what is told, `unkept` the keeper that keeps nothing, `following` has the second machine, which
//! runs what had an effect, `tracing` what is told of each event, `hooked` counts the rows that left the outbox, and
//! `laws` has the laws.
#![tactic(auto)]

mod following;
mod hooked;
mod laws;
mod trace;
mod tracing;
mod unkept;

pub use hooked::hooked_count;
pub use laws::{handles_have_origins, traces_are_right};
pub use trace::Trace;
pub use tracing::trace_of;

/// Running out of memory, which is the one fault that may come anywhere.
pub type NoMemory = std::alloc::AllocError;
