// Replies as stubs.
ghost use Rattle.std.specs.Prelude.{◌≡◌, IfOk, Ok};
ghost use Rattle.acct_calls.specs.declared.replies.Reply.{Reply};
ghost use Rattle.acct_layouts.specs.ReplyShapes.{HasShape};
ghost use Rattle.acct_stubs.specs.Calls.{ReadsAllIfRoom};
ghost use Rattle.acct_stubs.specs.Replies.{SpellsReply, reply_at, spell_reply};
ghost use Rattle.samr_wire.specs.Interface.{samr};

use crate::interface::Samr;
use crate::{NoMemory, WireError};
use acct_calls::{Face, Reply};
use std::alloc::Global;

/// The reply that a stub spells. Bytes after it are taken. `NotServed` is answered exactly off the table; else
/// `BadStub` exactly where no prefix of the stub spells a reply, with the place of the first field that has no reading.
pub fn read_reply(alloc: Global, opnum: u16, stub: &[u8]) -> Result<Reply, WireError>
    // What is read is spelled.
    ensures found { IfOk result (λ reply. SpellsReply samr opnum reply stub.now) }
    // What is spelled is read, unless there is no memory.
    ensures only { (reply : Reply) → SpellsReply samr opnum reply stub.now → ReadsAllIfRoom result (Ok reply) }
    // Why there is no reply.
    ensures exact { ReadsAllIfRoom result (reply_at samr opnum stub.now) }
    // What is read can be written.
    ensures shaped { IfOk result (λ reply. HasShape Face.Samr opnum reply) }
{
    acct_stubs::read_reply::<Samr>(alloc, opnum, stub)
}

/// The stub of a reply that is no fault and has its operation's shape.
pub fn write_reply(alloc: Global, opnum: u16, reply: &Reply) -> Result<Vec<u8>, NoMemory>
    requires { HasShape Face.Samr opnum reply.now }
    ensures { IfOk result (λ stub. stub.items ≡ spell_reply samr opnum reply.now) }
{
    acct_stubs::write_reply::<Samr>(alloc, opnum, reply)
}
