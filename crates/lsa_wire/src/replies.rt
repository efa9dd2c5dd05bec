// Replies as stubs.
ghost use Rattle.std.specs.Prelude.{◌≡◌, IfOk, Ok};
ghost use Rattle.acct_calls.specs.declared.replies.Reply.{Reply};
ghost use Rattle.acct_layouts.specs.ReplyShapes.{HasShape, RefersRightly};
ghost use Rattle.acct_stubs.specs.Calls.{ReadsAllIfRoom};
ghost use Rattle.acct_stubs.specs.Replies.{SpellsReply, reply_at, spell_reply};
ghost use Rattle.lsa_wire.specs.Interface.{lsa};

use crate::NoMemory;
use crate::interface::Lsa;
use acct_calls::Reply;
use acct_stubs::WireError;
use std::alloc::Global;

/// The reply that a stub spells. Bytes after it are taken. `NotServed` is answered exactly off the table; else
/// `BadStub` exactly where no prefix of the stub spells a reply, with the place of the first field that has no reading.
pub fn read_reply(alloc: Global, opnum: u16, stub: &[u8]) -> Result<Reply, WireError>
    // What is read is spelled.
    ensures found { IfOk result (λ reply. SpellsReply lsa opnum reply stub.now) }
    // What is spelled is read, unless there is no memory.
    ensures only { (reply : Reply) → SpellsReply lsa opnum reply stub.now → ReadsAllIfRoom result (Ok reply) }
    // Why there is no reply.
    ensures exact { ReadsAllIfRoom result (reply_at lsa opnum stub.now) }
    // What is read can be written, except a refusal that refers to a domain.
    ensures shaped { IfOk result (λ reply. RefersRightly reply → HasShape lsa.face opnum reply) }
{
    acct_stubs::read_reply::<Lsa>(alloc, opnum, stub)
}

/// The stub of a reply that is no fault and has its operation's shape.
pub fn write_reply(alloc: Global, opnum: u16, reply: &Reply) -> Result<Vec<u8>, NoMemory>
    requires { HasShape lsa.face opnum reply.now }
    ensures { IfOk result (λ stub. stub.items ≡ spell_reply lsa opnum reply.now) }
{
    acct_stubs::write_reply::<Lsa>(alloc, opnum, reply)
}
