// The answers of a peer, by the PDUs of its stream.
ghost use Rattle.std.specs.Prelude.{◌≡◌, ◌++◌, IfOk, Some, None};
ghost use Rattle.acct_codes.specs.Limits.{most_stub};
ghost use Rattle.acct_client.specs.Hearings.{both_accepted, gathers, begins, goes_on, responds, turned};

use crate::NoMemory;
use acct_base::{Seq, extended};
use acct_codes::limit::MOST_STUB;
use acct_codes::negotiation::RESULT_ACCEPTANCE;
use rpc_pdu::{Outcome, Pdu};
use rpc_session::{is_first, is_last};

/// The answer that is awaited.
#[derive(Clone, Copy, Debug, PartialEq, Eq)]
pub enum Awaited {
    /// That to the bind.
    Binding,
    /// That to the call with this id.
    Reply(u32),
}

/// A reply of which not all responses have come.
#[derive(Debug, Drop)]
pub struct PartialReply {
    /// The place of its first response in the peer's stream, in bytes.
    pub place: u64,
    /// The bytes of its stub so far.
    pub stub: Seq<u8>,
}

/// A whole answer.
#[derive(Debug, Drop)]
pub enum Answer {
    /// Both contexts are accepted. The peer takes fragments of at most so many bytes.
    Bound(u16),
    /// The stub of a reply, and the place of its first response in the peer's stream.
    Stub { place: u64, stub: Seq<u8> },
    /// A fault, with its status.
    Fault(u32),
    /// The bind is refused (bind_nak).
    Nak,
}

/// What a whole PDU does to the answer that is awaited.
#[derive(Debug, Drop)]
pub enum Turn {
    /// More of the answer is awaited.
    Goes(Option<PartialReply>),
    /// The answer is whole.
    Gives(Answer),
    /// The PDU is no part of the answer.
    Wrong,
}

fn both_accepted(outcomes: &[Outcome]) -> bool
    ensures { result ≡ both_accepted outcomes.now }
{
    match outcomes {
        [first, second] => first.result == RESULT_ACCEPTANCE && second.result == RESULT_ACCEPTANCE,
        _ => false,
    }
}

fn put(flags: u8, reply: PartialReply) -> Turn
    ensures { result ≡ gathers flags reply }
{
    if reply.stub.as_slice().len() > MOST_STUB {
        return Turn::Wrong;
    }
    if !is_last(flags) {
        return Turn::Goes(Some(reply));
    }
    Turn::Gives(Answer::Stub {
        place: reply.place,
        stub: reply.stub,
    })
}

fn begins(place: u64, flags: u8, stub: Seq<u8>, reply: Option<PartialReply>) -> Turn
    ensures { result ≡ begins place flags stub reply }
{
    match reply {
        None => put(flags, PartialReply { place, stub }),
        Some(_) => Turn::Wrong,
    }
}

fn goes_on(flags: u8, stub: &[u8], reply: Option<PartialReply>) -> Result<Turn, NoMemory>
    ensures { IfOk result (λ turn. turn ≡ goes_on flags stub.now reply) }
{
    match reply {
        None => Ok(Turn::Wrong),
        Some(reply) => Ok(put(
            flags,
            PartialReply {
                place: reply.place,
                stub: extended(reply.stub, stub)?,
            },
        )),
    }
}

fn responds(
    place: u64,
    flags: u8,
    stub: Seq<u8>,
    reply: Option<PartialReply>,
) -> Result<Turn, NoMemory>
    ensures { IfOk result (λ turn. turn ≡ responds place flags stub reply) }
{
    if is_first(flags) {
        Ok(begins(place, flags, stub, reply))
    } else {
        goes_on(flags, stub.as_slice(), reply)
    }
}

/// What a PDU does, which begins at this place of the peer's stream.
pub fn turned(
    awaited: Awaited,
    place: u64,
    reply: Option<PartialReply>,
    pdu: Pdu,
) -> Result<Turn, NoMemory>
    ensures { IfOk result (λ turn. turn ≡ turned awaited place reply pdu) }
{
    match (awaited, pdu) {
        (_, Pdu::Fault { status, .. }) => Ok(Turn::Gives(Answer::Fault(status))),
        (_, Pdu::BindNak { .. }) => Ok(Turn::Gives(Answer::Nak)),
        (Awaited::Binding, Pdu::BindAck { recv, outcomes, .. }) => {
            if both_accepted(outcomes.as_slice()) {
                Ok(Turn::Gives(Answer::Bound(recv)))
            } else {
                Ok(Turn::Wrong)
            }
        }
        (
            Awaited::Reply(awaited),
            Pdu::Response {
                id,
                flags,
                stub,
                ..
            },
        ) if id == awaited => responds(place, flags, stub, reply),
        _ => Ok(Turn::Wrong),
    }
}
