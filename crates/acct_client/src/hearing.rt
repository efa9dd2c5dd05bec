// What is heard of the answer that is awaited, in pieces of the peer's stream.
ghost use Rattle.std.specs.Prelude.{◌≡◌, ◌+◌, ◌++◌, ◌<◌, ◌≤◌, ◌^◌, [], drop, length, IfOk, None};
ghost use Rattle.acct_client.specs.Hearings.{listening, heard_next, hear, on, IsCutAnywhere};

use crate::NoMemory;
use crate::answers::{Answer, Awaited, PartialReply, Turn, turned};
use acct_base::{Seq, extended, kept, rest_of};
use rpc_pdu::{ReadPdu, Side, front_is_stable, read_pdu};
use std::alloc::{AllocError, Global};

/// What is left to hear: the place of the rest in the peer's stream, in bytes, the reply of which some responses have
/// come, and the rest, of which no PDU is whole while an answer is awaited.
#[derive(Debug, Drop)]
pub struct Listening {
    pub place: u64,
    pub reply: Option<PartialReply>,
    pub rest: Seq<u8>,
}

/// What stands at the beginning of some bytes.
#[derive(Debug, Drop)]
pub enum Next {
    /// Less than a PDU.
    Waits(Option<PartialReply>),
    /// A PDU of so many bytes, which is a part of the answer.
    Goes {
        reply: Option<PartialReply>,
        size: usize,
    },
    /// A PDU of so many bytes, with which the answer is whole.
    Gives {
        answer: Answer,
        size: usize,
    },
    /// From this place on it is no answer.
    Wrong(u64),
}

/// What was heard.
#[derive(Debug, Drop)]
pub enum Heard {
    /// More is awaited.
    Waits(Listening),
    /// The answer is whole, and so much is left.
    Answered { answer: Answer, left: Listening },
    /// From this place on it is no answer.
    NoAnswer(u64),
}

#[tactic(auto, unfolding(crate::specs::Hearings::heard_next))]
fn heard_next(
    alloc: Global,
    awaited: Awaited,
    place: u64,
    reply: Option<PartialReply>,
    bytes: &[u8],
) -> Result<Next, NoMemory>
    requires { place + length bytes.now < 2 ^ 64 }
    ensures { IfOk result (λ next. next ≡ heard_next awaited place reply bytes.now) }
{
    match read_pdu(alloc, Side::Client, bytes) {
        ReadPdu::NoMemory => Err(AllocError),
        ReadPdu::More => Ok(Next::Waits(reply)),
        ReadPdu::Refused { place: at, .. } => Ok(Next::Wrong(place + at as u64)),
        ReadPdu::Got {
            pdu,
            used: size,
            ..
        } => match turned(awaited, place, reply, pdu)? {
            Turn::Goes(reply) => Ok(Next::Goes { reply, size }),
            Turn::Gives(answer) => Ok(Next::Gives { answer, size }),
            Turn::Wrong => Ok(Next::Wrong(place)),
        },
    }
}

/// Hears bytes, the first of which has this place in the stream.
fn hear(
    alloc: Global,
    awaited: Awaited,
    place: u64,
    reply: Option<PartialReply>,
    bytes: Seq<u8>,
) -> Result<Heard, NoMemory>
    requires { place + length bytes < 2 ^ 64 }
    ensures { IfOk result (λ heard. heard ≡ hear awaited place reply bytes) }
{
    front_is_stable();
    let mut at = 0;
    let mut reply = reply;
    loop {
        let here = place + at as u64;
        match heard_next(alloc, awaited, here, reply, rest_of(bytes.as_slice(), at))? {
            Next::Waits(waiting) => {
                return Ok(Heard::Waits(Listening {
                    place: here,
                    reply: waiting,
                    rest: kept(alloc, bytes, at)?,
                }));
            }
            Next::Wrong(wrong) => return Ok(Heard::NoAnswer(wrong)),
            Next::Gives { answer, size } => {
                return Ok(Heard::Answered {
                    answer,
                    left: Listening {
                        place: here + size as u64,
                        reply: None,
                        rest: kept(alloc, bytes, at + size)?,
                    },
                });
            }
            Next::Goes {
                reply: gathered,
                size,
            } => {
                reply = gathered;
                at += size;
            }
        }
    }
}

/// Hears a piece after what is left. The places are below 2^64.
pub fn hear_piece(
    alloc: Global,
    awaited: Awaited,
    left: Listening,
    piece: &[u8],
) -> Result<Heard, NoMemory>
    requires { left.place + (length left.rest + length piece.now) < 2 ^ 64 }
    ensures { IfOk result (λ heard. heard ≡ on awaited left piece.now) }
{
    let bytes = extended(left.rest, piece)?;
    hear(alloc, awaited, left.place, left.reply, bytes)
}

/// A stream may be cut anywhere.
pub fn streams_are_cut_anywhere()
    ensures { IsCutAnywhere }
{
    front_is_stable();
}
