// The 16 bytes that each PDU begins with.
ghost use Rattle.std.specs.Prelude.{◌≡◌, length};
ghost use Rattle.rpc_pdu.specs.Headers.{kind_of, has_object, least_length, header_of};

use crate::numbers::u16_at;
use crate::pdus::Side;
use acct_codes::cause::{
    CAUSE_LENGTH, CAUSE_PACKET_TYPE, CAUSE_REPRESENTATION, CAUSE_VERIFIER, CAUSE_VERSION,
};
use acct_codes::pdu_header::{
    DREP_IEEE, DREP_LITTLE_ENDIAN_ASCII, MOST_RPC_VERS_MINOR, PFC_OBJECT_UUID, RPC_VERS,
};
use acct_codes::pdu_type;

/// The types of PDUs that are read.
#[derive(Clone, Copy)]
pub enum Kind {
    Request,
    Response,
    Fault,
    Bind,
    BindAck,
    BindNak,
    Alter,
    AlterResp,
    Cancel,
    Orphaned,
}

/// What a header comes to.
pub enum Header {
    /// The PDU is refused.
    Bad { place: usize, cause: u8 },
    /// It is a PDU of a type that is read, so many bytes long.
    Long { kind: Kind, size: u16 },
}

/// The type with this number, where the side reads it.
fn kind_of(side: Side, ptype: u8) -> Option<Kind>
    ensures { result ≡ kind_of side ptype }
{
    match side {
        Side::Server => match ptype {
            pdu_type::PTYPE_REQUEST => Some(Kind::Request),
            pdu_type::PTYPE_BIND => Some(Kind::Bind),
            pdu_type::PTYPE_ALTER_CONTEXT => Some(Kind::Alter),
            pdu_type::PTYPE_CO_CANCEL => Some(Kind::Cancel),
            pdu_type::PTYPE_ORPHANED => Some(Kind::Orphaned),
            _ => None,
        },
        Side::Client => match ptype {
            pdu_type::PTYPE_RESPONSE => Some(Kind::Response),
            pdu_type::PTYPE_FAULT => Some(Kind::Fault),
            pdu_type::PTYPE_BIND_ACK => Some(Kind::BindAck),
            pdu_type::PTYPE_BIND_NAK => Some(Kind::BindNak),
            pdu_type::PTYPE_ALTER_CONTEXT_RESP => Some(Kind::AlterResp),
            _ => None,
        },
    }
}

/// Whether a request has an object UUID before its stub.
pub fn has_object(flags: u8) -> bool
    ensures { result ≡ has_object flags }
{
    flags & PFC_OBJECT_UUID != 0
}

/// The length that a PDU has at least.
fn least_length(kind: Kind, flags: u8) -> u16
    ensures { result ≡ least_length kind flags }
{
    match kind {
        Kind::Request => { if has_object(flags) { 40 } else { 24 } }
        Kind::Response => 24,
        Kind::Fault | Kind::BindAck | Kind::AlterResp => 32,
        Kind::Bind | Kind::Alter => 28,
        Kind::BindNak => 18,
        Kind::Cancel | Kind::Orphaned => 16,
    }
}

/// What a header comes to, by the order of the causes.
#[tactic(auto, unfolding(crate::specs::Headers::header_of))]
pub fn header_of(side: Side, head: &[u8]) -> Header
    requires { length head.now ≡ 16 }
    ensures { result ≡ header_of side head.now }
{
    if head[0] != RPC_VERS || head[1] > MOST_RPC_VERS_MINOR {
        return Header::Bad {
            place: 0,
            cause: CAUSE_VERSION,
        };
    }
    if head[4] != DREP_LITTLE_ENDIAN_ASCII || head[5] != DREP_IEEE {
        return Header::Bad {
            place: 4,
            cause: CAUSE_REPRESENTATION,
        };
    }
    match kind_of(side, head[2]) {
        None => Header::Bad {
            place: 2,
            cause: CAUSE_PACKET_TYPE,
        },
        Some(kind) => {
            let size = u16_at(head, 8);
            if size < least_length(kind, head[3]) {
                return Header::Bad {
                    place: 8,
                    cause: CAUSE_LENGTH,
                };
            }
            if u16_at(head, 10) != 0 {
                return Header::Bad {
                    place: 10,
                    cause: CAUSE_VERIFIER,
                };
            }
            Header::Long { kind, size }
        }
    }
}
