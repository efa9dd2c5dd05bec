// Why a link was closed that hadn't ended.
ghost use Rattle.std.specs.Prelude.{◌≡◌};
ghost use Rattle.host_doors.specs.Closings.{is_pdu, fault_status, last_of, cause_of};

use acct_base::{front_u32, rest_of};
use acct_codes::fault::{NCA_S_PROTO_ERROR, NCA_S_SERVER_TOO_BUSY};
use acct_codes::pdu_type::{PTYPE_BIND_NAK, PTYPE_FAULT};
use thiserror::Error;

/// What the bytes say that were written last: that a PDU was refused, that the history was full, or anything else.
#[derive(Clone, Copy, Debug, PartialEq, Eq)]
pub enum LastPdu {
    Refusal,
    Busy,
    Other,
}

/// Why a link was closed that hadn't ended and at which nothing failed.
#[derive(Clone, Copy, Debug, PartialEq, Eq, Error)]
pub enum CloseCause {
    #[error("a PDU was refused")]
    Refused,
    #[error("the history was full")]
    Full,
    #[error("memory ran out")]
    Memory,
    /// After so many bytes, of which the last ones filled what was given for them.
    #[error("{0} bytes were read, which is max_read, or else memory ran out")]
    Limit(u64),
}

/// Whether bytes are one PDU of a type that has so many bytes.
fn is_pdu(bytes: &[u8], ptype: u8, size: usize) -> bool
    ensures { result ≡ is_pdu ptype size bytes.now }
{
    match bytes.get(2) {
        Some(byte) => *byte == ptype && bytes.len() == size,
        None => false,
    }
}

/// The status of a fault.
fn fault_status(bytes: &[u8]) -> Option<u32>
    ensures { result ≡ fault_status bytes.now }
{
    if is_pdu(bytes, PTYPE_FAULT, 32) {
        Some(front_u32(rest_of(bytes, 24)))
    } else {
        None
    }
}

/// What bytes say that were written last.
#[tactic(auto, unfolding(crate::specs::Closings::last_of))]
pub(crate) fn last_of(bytes: &[u8]) -> LastPdu
    ensures { result ≡ last_of bytes.now }
{
    if is_pdu(bytes, PTYPE_BIND_NAK, 24) {
        return LastPdu::Refusal;
    }
    match fault_status(bytes) {
        Some(NCA_S_PROTO_ERROR) => LastPdu::Refusal,
        Some(NCA_S_SERVER_TOO_BUSY) => LastPdu::Busy,
        _ => LastPdu::Other,
    }
}

/// Why a link was closed, by what was written last, how many bytes were read, and whether the last ones filled what was
/// given for them.
pub(crate) fn cause_of(last: LastPdu, read: u64, is_filled: bool) -> CloseCause
    ensures { result ≡ cause_of last read is_filled }
{
    match last {
        LastPdu::Refusal => CloseCause::Refused,
        LastPdu::Busy => CloseCause::Full,
        LastPdu::Other if is_filled => CloseCause::Limit(read),
        LastPdu::Other => CloseCause::Memory,
    }
}
