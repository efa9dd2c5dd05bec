//! A client of one command: the bytes that bring its calls, what is heard in those of the peer, and the whole dialogue
//! over a link, with the lines that are printed.
//!
//! It stands on `client_commands` for the commands, on `rpc_pdu` for the PDUs, on `rpc_session` for the fragments of
//! stubs, on both wires for the stubs, on `acct_links` for callers and links, and on `acct_keeper` for the sink. The
//! layer above uses the contract of [`call`]: what is sent and the lines that are printed are those of the answers that
//! the PDUs of the peer bring (`Answered` of the definitions), the end is that of the command's dialogue over all that
//! was read, and the peer is at fault only where a count of the link or the caller rose, or the link ended. Where no
//! call of the link fails and the peer's bytes bring all answers, the last one comes, except where memory runs out
//! ([`dialogues_come_to_their_ends`]).
//!
//! In rooms: without a link, `requests` has what is sent, `hearing` and `answers` read the peer's stream, and
//! `dialogue` and `asker` go from one state to the next: an [`Asker`] sends the bind and then the requests of its
//! command's calls, and its lines are those of the answers that the peer's bytes spell, however they are cut
//! ([`dialogues_are_cut_anywhere`]), with the first place that is no answer; what these answers are is said by whole
//! PDUs ([`dialogues_are_of_answers`]), and they are a server's replies where the bytes bring these
//! ([`replies_are_printed`]). Over a link, `conversing` sends, reads and hears, `calling` gets
//! the link and prints, and `ends` says how it ended.
#![tactic(auto)]

mod answers;
mod asker;
mod calling;
mod conversing;
mod dialogue;
mod ends;
mod errors;
mod hearing;
mod laws;
mod requests;

pub use answers::{Answer, Awaited, PartialReply};
pub use asker::Asker;
pub use calling::{Called, call};
pub use conversing::converse;
pub use dialogue::{State, Talk, dialogues_are_cut_anywhere, replies_are_printed};
pub use ends::TalkEnd;
pub use errors::AskError;
pub use hearing::{Heard, Listening, hear_piece, streams_are_cut_anywhere};
pub use laws::{dialogues_are_of_answers, dialogues_come_to_their_ends};
pub use requests::{bind_bytes, context_of, request_bytes, short_stubs_are_one_pdu};

/// Running out of memory, which is the one fault that may come anywhere.
pub type NoMemory = std::alloc::AllocError;
