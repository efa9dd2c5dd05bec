//! The account machine: one history of what was asked, the state after it, and the reply to each call.
//!
//! It stands on the configuration of `acct_config`, the access check of `dtyp_access`, the rows of `acct_rows`, the
//! keepers of `acct_keeper`, the sorted tables of `acct_tables`, in which it keeps the handles, and the table of
//! `acct_operations` with what `acct_rules` says of an operation; and for which calls there are and which shape a
//! reply has on `acct_layouts`. It names no operation: access, outcome, step, legal histories and the laws speak of
//! whatever operation the table has at a call's interface and opnum, and have what they need of each from the laws of
//! the table. An opening is decided by the access check over the descriptor of the object and the token of the
//! connection's listener, whatever right configuration the machine was given. The descriptor is that of the object's
//! row, or else the one that is configured for its kind. Where the configuration has a program that is told of
//! changes, a call that makes, changes or removes an account row puts a row in the outbox in the same commit.
//!
//! The layer above uses `Machine`: `open_conn`, `act` and `gone` each enter one event, or none where they answer that
//! the history is full, exactly at the limits of the configuration, and then change nothing. A call's reply is the one
//! that the definition gives at the state of the history before it, and has the shape of its operation. `history`,
//! `rows` and `into_parts` hand out the events, which are legal, and the rows of the state after them, which is sound.
//! The contracts also say which connections are live, so that a caller needs no lemma on the definitions. The laws say
//! what holds of every legal history, whoever made it: among others that the outbox has a row of each account that was
//! made, changed or removed, in order, except those that were taken out, which were the first; and handles come one at
//! a time, each by a call that opened it. `grant_of`, `needed` and `passed_handle` tell what the check of a call's
//! handle goes by, before the call is made.
//!
//! A machine stands over a keeper. `act` commits a change of rows to it once all memory is taken and before it makes
//! the change, and commits nothing else; a keeper that tells holds the pairs of the state's rows after every event,
//! whatever failed. A commit that fails gives the verdict `StoreFault` with the keeper's count of faults, which rose.
//! `first_out` shows the first row of the outbox, and `hooked` takes it out, with a commit of its own and an entry of
//! no connection, whose answers are the `HookedEnd` of `account_hooks`. So a machine is a gate of its outbox
//! (`HookGate`): the jobs of all changes of a history are a definition (`Jobs`), and the law `jobs_are_left` says which
//! are left.
//! `open_store` gives the rows whose pairs a keeper holds, or the smallest key that is broken; it seeds a keeper
//! without a pair, and takes pairs of format 1 to format 2 by one commit of one pair.
#![tactic(auto)]

mod arrivals;
mod checks;
mod entry;
mod given;
mod hooking;
mod index;
mod jobs;
mod laws;
mod lists;
mod machine;
mod opened;
mod opening;
mod outbox;
mod room;
mod seeding;
mod state;
mod store;

pub use account_hooks::HookedEnd;
pub use acct_calls::{Args, Call, Face, Handle, NoMemory, Outs, Reply};
pub use acct_config::{Config, ConfigError, Limits, Listener, read_config};
pub use acct_keeper::Keeper;
pub use acct_operations::calls_have_operations;
pub use acct_rows::{Object, OutRow, Rows};
pub use checks::{Access, access_with};
pub use entry::{Entry, Verdict};
pub use jobs::arguments;
pub use laws::{
    access_is_denied_exactly, connections_are_numbered, connections_are_opened_once,
    each_call_has_a_reply, fronts_are_legal, grants_come_from_openings, handles_come_in_order,
    hooks_are_told, jobs_are_left, kept_states_are_sound, limits_are_kept, openings_are_decided,
    others_change_nothing, outs_are_added, outs_are_left, replies_are_shaped,
};
pub use machine::{Acted, Machine, NoMachine, Opened};
pub use opened::{OpenError, open_store};
pub use opening::{described, granted};
pub use seeding::seed_rows;
pub use state::{Conn, Held};
