//! Whole runs of the account server: a replay of event lines, a period of serving, or a drain of the outbox, each on
//! one machine over a keeper of its rows, with the status that it ends in.
//!
//! It stands on `acct_machine` for the history and the rows to begin with, on `link_sessions` for the connections and
//! for requests over a gate, on `door_workers` for all doors, on `rpc_session` for the acts of a stream, on
//! `acct_keeper` and on the kit's `hex`; what a connection is answered, and sources and sinks, it hands out again.
//!
//! The layer above uses [`replay`], whose contract is one definition, `IsReplay`: under the one configuration that the
//! document spells, whatever bytes came and however the lines cut them, what was sent on each connection is the
//! transcript of the acts of its stream with the replies of its calls in the one history, which is legal; there access
//! is denied exactly where a recorded grant or an opening's check lacks a bit; and every status has its cause, that of
//! a configuration its first broken rule, with the events untouched.
//!
//! Of [`serve`] the contract is `IsServe`: the doors are served side by side; what was written on each link is the
//! transcript of the acts of what was read, with the replies of its calls in the one history; each link goes back to
//! its door; and every end and status has its cause. The configuration of either is read by [`read_configuration`].
//!
//! Of [`serve_with_hooks`] the contract is `IsServeBeside`: all that `serve` promises
//! ([`serving_with_hooks_serves`]), and beside it the program is run for the changes in the outbox: over the whole
//! history the runs are in order for its changes, and those of which a run ended with 0 have gone, except the last one
//! where it couldn't be taken out.
//!
//! Of [`run_hooks`] the contract is `RunsHooks`: the program is run for the changes in the outbox, in order, and those
//! of which a run ended with 0 have gone, except the last one where it couldn't be taken out. Where neither the keeper
//! nor a run failed, no change is left, or memory ran out ([`hooks_are_complete`]).
//!
//! What `replay` and `serve` promise of a connection is one record, `Headline`, which their contracts give: the laws
//! [`replay_gives_headline`] and [`serve_gives_headline`]. Where nothing fails outside, serving comes to its end
//! ([`serving_is_complete`]).
//!
//! In rooms: `beginning` opens the store, `running` does what a line says, `out_lines` takes the answers as lines,
//! `replays` is a whole replay, `serving` serves, `hooking` drains the outbox, `beside` does both; `headline` and `laws`
//! state what follows of these contracts.
//!
//! The way of a line: [`Event`] says what it asks for, the connection's stream which acts its bytes complete, the
//! stubs which call a request is, the machine enters it and replies, the replies are cut into responses and printed.
#![tactic(auto)]

mod beginning;
mod beside;
mod events;
mod headline;
mod hooking;
mod laws;
mod lines;
mod out_lines;
mod printing;
mod replays;
mod running;
mod serving;
mod status;

pub use acct_keeper::{
    Failed, MemorySink, MemorySource, Sink, Source, SteadySink, SteadySource, WholeError,
    read_whole, write_all,
};
pub use beside::{ServedHooks, serve_with_hooks, serving_with_hooks_serves};
pub use events::{Event, LineError};
pub use headline::{replay_gives_headline, serve_gives_headline, serving_is_complete};
pub use hooking::{hooks_are_complete, run_hooks};
pub use laws::cuts_change_nothing;
pub use link_sessions::{Answer, Ended, Gate, Peer, SessionEnd, read_request, request, session};
pub use replays::{Replayed, read_configuration, replay};
pub use serving::{Served, serve};
pub use status::Status;
