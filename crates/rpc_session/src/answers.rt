// What is answered on a connection without a call.
ghost use Rattle.std.specs.Prelude.{◌≡◌, ◌≤◌, length, IfOk};
ghost use Rattle.acct_codes.specs.Limits.{least_fragment, most_fragment};
ghost use Rattle.rpc_pdu.specs.Written.{HasFewParts, size_of, written};
ghost use Rattle.rpc_session.specs.Answers.{size_for, sizes_for, bind_answer, alter_answer, refusal_bytes, closing};

use crate::contexts::outcomes;
use crate::replies::fault_bytes;
use crate::sessions::{Act, Sizes};
use acct_base::Seq;
use acct_codes::cause::CAUSE_VERSION;
use acct_codes::fault::NCA_S_PROTO_ERROR;
use acct_codes::limit::{LEAST_FRAGMENT, MOST_FRAGMENT};
use acct_codes::negotiation::{REJECT_NONE, REJECT_PROTOCOL_VERSION};
use acct_codes::pdu_type::PTYPE_BIND;
use rpc_pdu::{Element, NoMemory, Pdu, write_pdu};
use std::alloc::{AllocError, Global};

/// The size of fragments, in bytes, for the one that the other side takes at most.
pub fn size_for(asked: u16) -> u16
    ensures value { result ≡ size_for asked }
    ensures low { least_fragment ≤ result }
    ensures high { result ≤ most_fragment }
{
    asked.max(LEAST_FRAGMENT).min(MOST_FRAGMENT)
}

/// The sizes for those that a bind asks for.
pub fn sizes_for(xmit: u16, recv: u16) -> Sizes
    ensures { result ≡ sizes_for xmit recv }
{
    Sizes {
        xmit: size_for(recv),
        recv: size_for(xmit),
    }
}

/// The bytes of an answer.
fn bytes_of(alloc: Global, answer: Pdu) -> Result<Seq<u8>, NoMemory>
    requires parts { HasFewParts answer }
    requires size { size_of answer ≤ 65535 }
    ensures { IfOk result (λ bytes. bytes ≡ written answer) }
{
    let written = write_pdu(alloc, &answer);
    drop(answer);
    match written {
        Ok(bytes) => Ok(Seq::from_vec(bytes)),
        Err(AllocError) => Err(AllocError),
    }
}

/// The answer to a bind.
#[tactic(auto, unfolding(crate::specs::Answers::bind_answer))]
pub fn bind_answer(
    alloc: Global,
    conn: u32,
    id: u32,
    sizes: Sizes,
    elements: &[Element],
) -> Result<Seq<u8>, NoMemory>
    requires { length elements.now ≤ 255 }
    ensures { IfOk result (λ bytes. bytes ≡ bind_answer conn id sizes elements.now) }
{
    let answer = Pdu::BindAck {
        id,
        xmit: sizes.xmit,
        recv: sizes.recv,
        group: conn,
        outcomes: outcomes(alloc, elements)?,
    };
    bytes_of(alloc, answer)
}

/// The answer to an alter_context.
#[tactic(auto, unfolding(crate::specs::Answers::alter_answer))]
pub fn alter_answer(
    alloc: Global,
    conn: u32,
    id: u32,
    sizes: Sizes,
    elements: &[Element],
) -> Result<Seq<u8>, NoMemory>
    requires { length elements.now ≤ 255 }
    ensures { IfOk result (λ bytes. bytes ≡ alter_answer conn id sizes elements.now) }
{
    let answer = Pdu::AlterResp {
        id,
        xmit: sizes.xmit,
        recv: sizes.recv,
        group: conn,
        outcomes: outcomes(alloc, elements)?,
    };
    bytes_of(alloc, answer)
}

#[tactic(auto, unfolding(crate::specs::Answers::refusal_bytes))]
fn refusal_bytes(alloc: Global, cause: u8, ptype: u8, id: u32) -> Result<Seq<u8>, NoMemory>
    ensures { IfOk result (λ bytes. bytes ≡ refusal_bytes cause ptype id) }
{
    if ptype == PTYPE_BIND {
        let reason = if cause == CAUSE_VERSION {
            REJECT_PROTOCOL_VERSION
        } else {
            REJECT_NONE
        };
        return bytes_of(alloc, Pdu::BindNak { id, reason });
    }
    Seq::copy_of(alloc, &fault_bytes(id, 0, NCA_S_PROTO_ERROR))
}

/// The last act, after a refusal.
pub fn closing(alloc: Global, place: u64, cause: u8, ptype: u8, id: u32) -> Result<Act, NoMemory>
    ensures { IfOk result (λ act. act ≡ closing place cause ptype id) }
{
    let bytes = refusal_bytes(alloc, cause, ptype, id)?;
    Ok(Act::Closed {
        place,
        cause,
        bytes,
    })
}
