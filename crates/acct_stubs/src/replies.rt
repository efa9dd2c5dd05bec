// Replies as stubs.
ghost use Rattle.std.specs.Prelude.{◌≡◌, IfOk, Ok};
ghost use Rattle.acct_calls.specs.declared.replies.Reply.{Reply};
ghost use Rattle.acct_layouts.specs.ReplyShapes.{HasShape, RefersRightly};
ghost use Rattle.acct_stubs.specs.Calls.{ReadsAllIfRoom};
ghost use Rattle.acct_stubs.specs.Replies.{SpellsReply, reply_at, spell_reply};

use crate::interface::Interface;
use crate::outputs::{read_done, write_done};
use crate::{NoMemory, WireError};
use acct_calls::Reply;
use acct_layouts::layout_of;
use ndr_core::{In, Out};
use std::alloc::Global;

#[tactic(auto, unfolding(crate::specs::Replies::reply_at))]
fn reply_in<I: Interface>(alloc: Global, opnum: u16, stub: &[u8]) -> Result<Reply, WireError>
    ensures { ReadsAllIfRoom result (reply_at I.wire opnum stub.now) }
{
    let Some(layout) = layout_of(I::face(), opnum) else {
        return Err(WireError::NotServed(opnum));
    };
    Ok(read_done::<I>(alloc, &mut In::new(stub), layout.outputs)?)
}

/// The reply that a stub spells. Bytes after it are taken. `NotServed` is answered exactly off the table; else
/// `BadStub` exactly where no prefix of the stub spells a reply, with the place of the first field that has no reading.
pub fn read_reply<I: Interface>(alloc: Global, opnum: u16, stub: &[u8]) -> Result<Reply, WireError>
    // What is read is spelled.
    ensures found { IfOk result (λ reply. SpellsReply I.wire opnum reply stub.now) }
    // What is spelled is read, unless there is no memory.
    ensures only { (reply : Reply) → SpellsReply I.wire opnum reply stub.now → ReadsAllIfRoom result (Ok reply) }
    // Why there is no reply.
    ensures exact { ReadsAllIfRoom result (reply_at I.wire opnum stub.now) }
    // What is read can be written, except a refusal that refers to a domain.
    ensures shaped { IfOk result (λ reply. RefersRightly reply → HasShape I.wire.face opnum reply) }
{
    reply_in::<I>(alloc, opnum, stub)
}

/// The stub of a reply that is no fault and has its operation's shape.
#[tactic(auto, unfolding(crate::specs::Replies::spell_reply))]
pub fn write_reply<I: Interface>(
    alloc: Global,
    opnum: u16,
    reply: &Reply,
) -> Result<Vec<u8>, NoMemory>
    requires { HasShape I.wire.face opnum reply.now }
    ensures { IfOk result (λ stub. stub.items ≡ spell_reply I.wire opnum reply.now) }
{
    let Some(layout) = layout_of(I::face(), opnum) else {
        unreachable!()
    };
    let mut to = Out::new(alloc);
    write_done::<I>(&mut to, layout.outputs, reply)?;
    Ok(to.into_bytes())
}
