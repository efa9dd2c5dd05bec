//! What one connection is answered: each request over a gate to the machine, and a session from its link's first byte
//! to its end.
//!
//! It stands on `acct_machine` for the history and the replies, on `rpc_session` for the acts of a stream and the bytes
//! of replies, on `samr_wire` and `lsa_wire` for stubs, and on `acct_links` for what is read and written. It knows no
//! event line, no lock, no thread, no socket and no store: what it promises is proved once for every link and every
//! [`Gate`]; the machine itself is one.
//!
//! The layers above use [`request`]: a request that is a call is entered in the history that a turn of the gate finds,
//! and its answer has the reply of the state there, unless that history is full; another one is answered by a fault,
//! and nothing else happens. And [`session`], for a connection that the gate serves and that has made no call: by the
//! session's end ([`SessionEnd`]), each with its cause, what was written is the transcript of the acts of what was read
//! (`Transcript`), with the replies that the connection's calls have in the history; these calls are the decoded calls
//! of the acts, in order. After a failed write, a full history and running out of memory they are those of the first
//! acts, and what was written are the whole answers to these and a prefix of the next. In every case the connection's
//! end is entered last.
//!
//! [`answer_all`] answers acts one after the other, up to one that isn't answered, and says why. Whatever takes the
//! answers is a [`Taker`]; those of a session are taken by its link.
//!
//! In rooms: `gate` has the trait, `machine_gate` the machine as one; `requests` takes a request to a call and its
//! answer; `connections` has a peer's stream and phase; `takers` says what takes answers, `answers` gives them act by
//! act, `sessions` reads pieces and hears them, `ends` says how a session ends.
#![tactic(auto)]

mod answers;
mod connections;
mod ends;
mod gate;
mod machine_gate;
mod requests;
mod sessions;
mod takers;

pub use answers::answer_all;
pub use connections::{Peer, heard, is_served, new_peer};
pub use ends::{Ended, SessionEnd, Stop};
pub use gate::Gate;
pub use requests::{Answer, read_request, request};
pub use sessions::{closing, session};
pub use takers::Taker;
