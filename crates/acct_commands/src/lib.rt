//! The program's commands, `replay`, `audit`, `serve`, `hooks`, `call`, `gen`, over a world: its top call, `account`.
//!
//! It stands on `acct_world` for the world that hands out sources, the sink, keepers, the entrance, the caller and what
//! runs programs, on `acct_server`, `door_workers` and `grant_audit` for what the commands do, and on `acct_client` for
//! a call and for the bytes that the generator's client would send. What the program promises are the clauses of
//! [`account`]: over a world that tells, the words without a form take no part; a replay leaves the history, the lines
//! and the status of its events, and the world's keeper with the pairs of the rows after them; an audit does the same
//! over bytes in memory, and writes a line for each call whose handle was let pass; the generator writes the summary of
//! a replay of the events that it makes, which are the very lines that the definition `generated` has ([`generated`]);
//! a server asks the entrance once for the doors of each listener, and serves them all, period after period, each of
//! which is left to the world; the outbox is drained with the program of the configuration; and a call holds the
//! dialogue of its command over one link, and writes its lines.
//!
//! In rooms: `forms` tells which command the words are; `command` has `account` with the replay, the audit, the
//! generator and the client's command, `serving` the server, `hooking` the outbox; `auditing` has the audit of a
//! replay, `audit_lines` its lines; `calls` has the generator's calls, `events` their lines, `generating` the replay of
//! these on a new store, `summary` what is told of it; `period` makes what is left of a run, `keeping` leaves it to the
//! world, and `statuses` has the statuses of parts that aren't handed out, of askings, and of dialogues.
#![tactic(auto)]

mod audit_lines;
mod auditing;
mod calls;
mod command;
mod events;
mod forms;
mod generating;
mod hooking;
mod keeping;
mod period;
mod serving;
mod statuses;
mod summary;

pub use command::account;
pub use events::generated;
pub use generating::configuration_is_taken;

/// Running out of memory, which is the one fault that may come anywhere.
pub type NoMemory = std::alloc::AllocError;
