//! Sessions of connection-oriented DCE/RPC (C706, chapter 12): the acts of a connection's stream, and the bytes of
//! replies.
//!
//! It stands on `rpc_pdu` for the grammar and on `acct_calls` for the interfaces, which it hands on. The layer above
//! uses that, however the stream is cut into pieces, the acts that [`Bytes2Acts::feed`] appends in all are `acts` of
//! the joined pieces, and that [`reply_bytes`] and [`fault_bytes`] are the bytes of the responses that bring a stub and
//! of a fault; [`cut_stub`] cuts a client's requests as well.
#![tactic(auto)]

mod answers;
mod contexts;
mod fragments;
mod hearing;
mod laws;
mod replies;
mod sessions;

pub use acct_calls::Face;
pub use answers::size_for;
pub use contexts::Context;
pub use fragments::{FragmentHead, cut_stub};
pub use hearing::{Bytes2Acts, Hearing};
pub use laws::{
    acts_are_of_pdus, calls_fit, refusals_are_last, replies_bring_stubs, room_by_length,
    streams_are_cut_anywhere,
};
pub use replies::{fault_bytes, reply_bytes};
pub use sessions::{Act, Association, PartialRequest, Request, Session, Sizes, is_first, is_last};
