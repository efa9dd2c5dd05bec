//! All doors side by side: they are asked for, listener by listener, and then served by a worker each, in a thread of
//! its own, over one machine under a lock.
//!
//! It stands on `hist_lock` for the lock and its passes, on `acct_machine` for what a turn does, on `link_sessions` for
//! the session of a connection and the [`Gate`](link_sessions::Gate) that it is held over, on `acct_links` for
//! entrances, doors and links, on `acct_config` for the listeners, and on std's threads.
//!
//! The layer above uses [`open_doors`]: the entrance is asked once for each listener, in order, until it fails, and the
//! doors that it gave are there in the order of the askings. And [`serve_doors`]: the doors come back in their order,
//! and of each it says which links it gave and took back and why no further one was taken; of each link it says what it
//! read and wrote, in the one history that the machine then has (`IsServed`); and it tells how serving ended, and the
//! end of each session by the number of its connection.
//!
//! Where the configuration has a hook, [`serve_doors_with_hook`] does all that, and beside the workers it runs the
//! program for the changes in the outbox: all drains of the call come to one, over the whole history (`HasDrained`).
//!
//! Below that, a lock and a pass are a gate ([`LockGate`]): each opening, call and end is a turn of the lock, which
//! finds a history that goes on from what the pass knows by entries of other passes, and does there what the machine
//! does. Whatever is said of a connection that the pass opened is as the pass knows it (`IsPassing`), and stays so
//! while other connections of the pass are served (`MovesOn`). A worker ([`Worker::work`]) serves the links of one
//! door, in order: each served a connection, which was opened at the door's listener and is gone, or was given back
//! unread since the history was full (`IsServing`).
//!
//! A lock and its first pass are a gate to the outbox ([`HookLockGate`]): each look and each taking out is a turn, so
//! no program runs while the lock is held. Entries of changes that were taken out are of the home lane, and so each is
//! the first pass's own: no other pass took one out.
//!
//! In rooms: `opening` asks for the doors; `kept` has what lies under the lock and the jobs of a turn, `lock_gate` the
//! gate; `workers` has the worker, `ends` why it takes no further link, `laws` what the count of a full history says
//! and what stands of all links where passes are joined; `hiring` gives each door its worker, `working` lets all of
//! them work, `joining` takes their passes back, `outcome` says how serving ends, `serving` is the whole. `hook_gate`
//! has the gate to the outbox, `hooking` the worker that drains it, `bell` what that worker waits for, and `beside` the
//! whole with it.
#![tactic(auto)]

mod bell;
mod beside;
mod ends;
mod hiring;
mod hook_gate;
mod hooking;
mod joining;
mod kept;
mod laws;
mod lock_gate;
mod opening;
mod outcome;
mod serving;
mod workers;
mod working;

pub use bell::Bell;
pub use beside::{DoorsHooked, serve_doors_with_hook};
pub use ends::DoorEnd;
pub use hook_gate::HookLockGate;
pub use kept::{Begun, CallAnswer, Calling, Ending, Hooking, Locked, Looking, Opening};
pub use laws::{full_counts, links_are_joined};
pub use lock_gate::LockGate;
pub use opening::open_doors;
pub use serving::{DoorsServed, serve_doors};
pub use workers::Worker;
