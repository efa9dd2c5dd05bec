//! The PDUs of connection-oriented DCE/RPC (C706, chapter 12; MS-RPCE): what stands at the beginning of a stream, for a
//! server and for a client, and the bytes of a PDU.
//!
//! It stands on `acct_base` for lists and on `uuid`. The layer above uses that [`read_pdu`] gives the `front` of the
//! stream, that a longer stream changes no decision ([`front_is_stable`]), that the bytes of a written PDU are
//! `written` of it ([`write_pdu`]), and that the side which reads its type gets it back ([`written_is_read_back`]).
#![tactic(auto)]

mod bodies;
mod fronts;
mod headers;
mod laws;
mod lists;
mod numbers;
mod pdus;
mod syntaxes;
mod writing;

pub use fronts::{ReadPdu, read_pdu};
pub use laws::{bytes_divide_once, front_is_stable, whole_is_exactly_a_pdu, written_is_read_back};
pub use numbers::{u16_bytes, u32_bytes};
pub use pdus::{Element, Outcome, Pdu, Side};
pub use syntaxes::{Syntax, is_same_syntax, lsarpc, ndr, samr};
pub use writing::{FAULT_FLAGS, NoMemory, WHOLE_FLAGS, write_pdu};
