//! The types of PDUs (PTYPE, C706 12.6.1), each by its section.
ghost use Rattle.std.specs.Prelude.{◌≡◌};
ghost use Rattle.acct_codes.specs.Pdus.{ptype_request, ptype_response, ptype_fault, ptype_bind, ptype_bind_ack};
ghost use Rattle.acct_codes.specs.Pdus.{ptype_bind_nak, ptype_alter_context, ptype_alter_context_resp, ptype_shutdown};
ghost use Rattle.acct_codes.specs.Pdus.{ptype_co_cancel, ptype_orphaned};

/// A request (C706 12.6.4.9).
pub const PTYPE_REQUEST: u8 = 0;
/// A response (C706 12.6.4.10).
pub const PTYPE_RESPONSE: u8 = 2;
/// A fault (C706 12.6.4.7).
pub const PTYPE_FAULT: u8 = 3;
/// A bind (C706 12.6.4.3).
pub const PTYPE_BIND: u8 = 11;
/// A bind_ack (C706 12.6.4.4).
pub const PTYPE_BIND_ACK: u8 = 12;
/// A bind_nak (C706 12.6.4.5).
pub const PTYPE_BIND_NAK: u8 = 13;
/// An alter_context (C706 12.6.4.1).
pub const PTYPE_ALTER_CONTEXT: u8 = 14;
/// An alter_context_resp (C706 12.6.4.2).
pub const PTYPE_ALTER_CONTEXT_RESP: u8 = 15;
/// A shutdown, which neither side reads (C706 12.6.4.11).
pub const PTYPE_SHUTDOWN: u8 = 17;
/// A cancel (C706 12.6.4.6).
pub const PTYPE_CO_CANCEL: u8 = 18;
/// An orphaned (C706 12.6.4.8).
pub const PTYPE_ORPHANED: u8 = 19;

/// Each type is the one of the standard (C706 12.6.1).
pub fn pdu_types_are_the_standards()
    ensures ptype_request { PTYPE_REQUEST ≡ ptype_request }
    ensures ptype_response { PTYPE_RESPONSE ≡ ptype_response }
    ensures ptype_fault { PTYPE_FAULT ≡ ptype_fault }
    ensures ptype_bind { PTYPE_BIND ≡ ptype_bind }
    ensures ptype_bind_ack { PTYPE_BIND_ACK ≡ ptype_bind_ack }
    ensures ptype_bind_nak { PTYPE_BIND_NAK ≡ ptype_bind_nak }
    ensures ptype_alter_context { PTYPE_ALTER_CONTEXT ≡ ptype_alter_context }
    ensures ptype_alter_context_resp { PTYPE_ALTER_CONTEXT_RESP ≡ ptype_alter_context_resp }
    ensures ptype_shutdown { PTYPE_SHUTDOWN ≡ ptype_shutdown }
    ensures ptype_co_cancel { PTYPE_CO_CANCEL ≡ ptype_co_cancel }
    ensures ptype_orphaned { PTYPE_ORPHANED ≡ ptype_orphaned }
{}
