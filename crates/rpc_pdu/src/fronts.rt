// What stands at the beginning of a stream.
ghost use Rattle.rpc_pdu.specs.ReadPdu.{IsRead, IsWithin};

use crate::bodies::body_of;
use crate::headers::{Header, header_of};
use crate::numbers::u32_at;
use crate::pdus::{Pdu, Side};
use acct_base::Unread;
use acct_codes::cause::CAUSE_BODY;
use std::alloc::Global;

/// What stands at the beginning of a stream.
#[derive(Debug, Drop)]
pub enum ReadPdu {
    /// A whole PDU, its type byte and its call id, and the number of its bytes.
    Got {
        pdu: Pdu,
        ptype: u8,
        id: u32,
        used: usize,
    },
    /// Bytes are missing, and nothing is refused yet.
    More,
    /// The PDU is refused, by the first of these causes. The place counts bytes from its start.
    ///
    /// | cause | where | place |
    /// |---|---|---|
    /// | 1 | the version isn't 5.0 or 5.1 | 0 |
    /// | 2 | the data representation isn't little-endian integers, ASCII and IEEE floats | 4 |
    /// | 3 | the side doesn't read the type | 2 |
    /// | 4 | `frag_length` is below the type's least length | 8 |
    /// | 5 | `auth_length` isn't 0 | 10 |
    /// | 6 | the body of a bind, an alter_context or their answers has no reading | 16 |
    ///
    /// `ptype` is the type byte and `id` the call id.
    Refused {
        place: usize,
        cause: u8,
        ptype: u8,
        id: u32,
    },
    /// Memory ran out.
    NoMemory,
}

/// Reads the PDU at the beginning of bytes (C706, section 12.6). Version, representation, type, length and verifier are
/// looked at as soon as there are 16 bytes, the body only once the whole PDU is there. Bytes after a body's last field
/// are taken.
#[tactic(auto, unfolding(crate::specs::Bodies::front))]
pub fn read_pdu(alloc: Global, side: Side, bytes: &[u8]) -> ReadPdu
    ensures front { IsRead result side bytes.now }
    ensures bounds { IsWithin result }
{
    if bytes.len() < 16 {
        return ReadPdu::More;
    }
    let (head, _) = bytes.split_at(16);
    match header_of(side, head) {
        Header::Bad { place, cause } => ReadPdu::Refused {
            place,
            cause,
            ptype: head[2],
            id: u32_at(head, 12),
        },
        Header::Long { kind, size } => {
            let used = size as usize;
            if bytes.len() < used {
                return ReadPdu::More;
            }
            let (whole, _) = bytes.split_at(used);
            match body_of(alloc, kind, whole) {
                Err(Unread::Memory) => ReadPdu::NoMemory,
                Err(Unread::Misspelled) => ReadPdu::Refused {
                    place: 16,
                    cause: CAUSE_BODY,
                    ptype: head[2],
                    id: u32_at(head, 12),
                },
                Ok(pdu) => ReadPdu::Got {
                    pdu,
                    ptype: head[2],
                    id: u32_at(head, 12),
                    used,
                },
            }
        }
    }
}
