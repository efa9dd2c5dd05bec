// Requests: which call each of them is, and its answer over a gate.
ghost use Rattle.std.specs.Prelude.{◌≡◌, ◌≤◌, OnErr, OnOk, IfOk, Ok, Err, Result, length};
ghost use Rattle.acct_calls.specs.declared.calls.Call.{Call};
ghost use Rattle.acct_codes.specs.Limits.{least_fragment, most_fragment};
ghost use Rattle.rpc_session.specs.Acts.{IsFitRequest};
ghost use Rattle.acct_layouts.specs.ReplyShapes.{HasShape};
ghost use Rattle.acct_machine.specs.Access.{IsCall};
ghost use Rattle.acct_stubs.specs.declared.errors.WireError.{WireError};
ghost use Rattle.acct_stubs.specs.Calls.{ReadsAllIfRoom};
ghost use Rattle.acct_stubs.specs.Replies.{spell_reply};
ghost use Rattle.link_sessions.specs.Transcript.{wire_of, call_on, undecoded_status, answer_bytes, undecoded_bytes};
ghost use Rattle.link_sessions.specs.Answering.{AnswersRequest, BeginsRequest, IsAnswerOf};

use crate::gate::Gate;
use acct_codes::fault::{NCA_S_OP_RNG_ERROR, RPC_X_BAD_STUB_DATA};
use acct_machine::{Acted, Call, Face, Reply, calls_have_operations};
use acct_stubs::WireError;
use rpc_session::{Request, fault_bytes, reply_bytes};
use std::alloc::{AllocError, Global};

/// What comes of a request: the bytes of its answer; or it is a call that the history doesn't take, with what the
/// history has.
#[derive(Debug, Drop)]
pub enum Answer {
    Bytes(Vec<u8>),
    Full(u64),
}

/// The call of a request on an interface, or why it is none. `Memory` comes only where memory runs out.
pub fn read_request(alloc: Global, face: Face, opnum: u16, stub: &[u8]) -> Result<Call, WireError>
    ensures value { ReadsAllIfRoom result (call_on face opnum stub.now) }
    ensures call { IfOk result IsCall }
    ensures face { IfOk result (λ call. call.face ≡ face) }
    ensures opnum { IfOk result (λ call. call.opnum ≡ opnum) }
{
    calls_have_operations();
    match face {
        Face::Samr => samr_wire::read_call(alloc, opnum, stub),
        Face::Lsa => lsa_wire::read_call(alloc, opnum, stub),
    }
}

/// The status of the fault that answers a request that is no decoded call. An error says that memory ran out.
pub fn undecoded_status(error: WireError) -> Result<u32, AllocError>
    ensures status { IfOk result (λ status. status ≡ undecoded_status error) }
    ensures told { OnOk result ((r : Result Call WireError) → ReadsAllIfRoom (Err error) r → r ≡ Err error) }
{
    match error {
        WireError::NotServed(_) => Ok(NCA_S_OP_RNG_ERROR),
        WireError::BadStub(_) => Ok(RPC_X_BAD_STUB_DATA),
        WireError::Memory => Err(AllocError),
    }
}

// The stub of a reply that is no fault.
fn reply_stub(alloc: Global, face: Face, opnum: u16, reply: &Reply) -> Result<Vec<u8>, AllocError>
    requires { HasShape face opnum reply.now }
    ensures { IfOk result (λ stub. stub.items ≡ spell_reply (wire_of face) opnum reply.now) }
{
    match face {
        Face::Samr => samr_wire::write_reply(alloc, opnum, reply),
        Face::Lsa => lsa_wire::write_reply(alloc, opnum, reply),
    }
}

// The answer to a call of an interface and an opnum, by its reply. The reply's stub is copied once, into its fragments.
#[tactic(auto, unfolding(crate::specs::Transcript::answer_bytes))]
fn answer_bytes(
    alloc: Global,
    asked: &Request,
    face: Face,
    opnum: u16,
    reply: &Reply,
) -> Result<Vec<u8>, AllocError>
    requires low { least_fragment ≤ asked.now.size }
    requires high { asked.now.size ≤ most_fragment }
    requires shaped { IsAnswerOf face opnum reply.now }
    ensures { IfOk result (λ bytes. bytes.items ≡ answer_bytes asked.now face opnum reply.now) }
{
    match reply {
        Reply::Fault(status) => fault_bytes(asked.id, asked.context, *status).to_vec(alloc),
        Reply::Done { .. } => {
            let stub = reply_stub(alloc, face, opnum, reply)?;
            reply_bytes(alloc, asked.id, asked.context, asked.size, &stub)
        }
    }
}

// A call is entered, and gets its answer; or it isn't, in a full history.
fn make_call<G: Gate>(
    alloc: Global,
    gate: &mut G,
    conn: u32,
    asked: &Request,
    call: Call,
    stub_size: u32,
) -> Result<Answer, AllocError>
    requires serves { G.serves gate.old conn }
    requires low { least_fragment ≤ asked.now.size }
    requires high { asked.now.size ≤ most_fragment }
    requires spelled { IsCall call }
    ensures answers { IfOk result (AnswersRequest (G.start gate.old) conn (G.finds gate.old) (G.known gate.old)
        (G.known gate.new) asked.now stub_size (Ok call)) }
    ensures begins { OnErr result (BeginsRequest (G.start gate.old) conn (G.finds gate.old) (G.known gate.old)
        (G.known gate.new) stub_size (Ok call)) }
    ensures serves { G.serves gate.new conn }
    ensures moves { G.moves gate.old conn gate.new }
    ensures start { G.start gate.new ≡ G.start gate.old }
{
    let (face, opnum) = (call.face, call.opnum);
    match gate.act(conn, call, stub_size) {
        Acted::Reply(reply) => {
            let answered = answer_bytes(alloc, asked, face, opnum, &reply);
            drop(reply);
            let bytes = answered?;
            Ok(Answer::Bytes(bytes))
        }
        Acted::FullCalls(count) => Ok(Answer::Full(count)),
        Acted::FullBytes(sum) => Ok(Answer::Full(sum)),
    }
}

// The fault that answers a request that is no decoded call.
fn undecoded_bytes(alloc: Global, asked: &Request, error: WireError) -> Result<Vec<u8>, AllocError>
    ensures bytes { IfOk result (λ bytes. bytes.items ≡ undecoded_bytes asked.now error) }
    ensures told { OnOk result ((r : Result Call WireError) → ReadsAllIfRoom (Err error) r → r ≡ Err error) }
{
    let status = undecoded_status(error)?;
    fault_bytes(asked.id, asked.context, status).to_vec(alloc)
}

/// Answers a request: one that is a call is entered over the gate, and gets the bytes of its reply, unless the history
/// is full; another gets a fault, and nothing else happens.
pub fn request<G: Gate>(
    alloc: Global,
    gate: &mut G,
    conn: u32,
    asked: &Request,
) -> Result<Answer, AllocError>
    requires serves { G.serves gate.old conn }
    requires fits { IsFitRequest asked.now }
    ensures answers { IfOk result (AnswersRequest (G.start gate.old) conn (G.finds gate.old) (G.known gate.old)
        (G.known gate.new) asked.now (length asked.now.stub) (call_on asked.now.face asked.now.opnum asked.now.stub)) }
    ensures begins { OnErr result (BeginsRequest (G.start gate.old) conn (G.finds gate.old) (G.known gate.old)
        (G.known gate.new) (length asked.now.stub) (call_on asked.now.face asked.now.opnum asked.now.stub)) }
    ensures serves { G.serves gate.new conn }
    ensures moves { G.moves gate.old conn gate.new }
    ensures start { G.start gate.new ≡ G.start gate.old }
{
    let stub = asked.stub.as_slice();
    match read_request(alloc, asked.face, asked.opnum, stub) {
        Ok(call) => make_call(alloc, gate, conn, asked, call, stub.len() as u32),
        Err(error) => Ok(Answer::Bytes(undecoded_bytes(alloc, asked, error)?)),
    }
}
