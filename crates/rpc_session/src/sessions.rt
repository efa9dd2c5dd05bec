// What one whole PDU does in a session.
ghost use Rattle.std.specs.Prelude.{◌≡◌, ◌==◌, ◌++◌, ◌≤◌, [], not, bit_and, IfOk, length, Some, None};
ghost use Rattle.acct_codes.specs.Limits.{most_stub};
ghost use Rattle.acct_codes.specs.Pdus.{pfc_first_frag, pfc_last_frag};
ghost use Rattle.rpc_pdu.specs.Written.{HasFewParts};
ghost use Rattle.rpc_session.specs.Answers.{bind_answer, alter_answer, with_elements};
ghost use Rattle.rpc_session.specs.Sessions.{binds, asked, gathers, begins, goes_on, requests, without, taken_first};
ghost use Rattle.rpc_session.specs.Sessions.{taken_later, taken};

use crate::answers::{alter_answer, bind_answer, sizes_for};
use crate::contexts::{Context, face_at, with_elements};
use crate::replies::fault_bytes;
use acct_base::{Seq, extended};
use acct_calls::Face;
use acct_codes::cause::{
    CAUSE_BIND_ORDER, CAUSE_FIRST_TWICE, CAUSE_NO_FIRST, CAUSE_STUB_TOO_LONG,
    CAUSE_TOO_MANY_CONTEXTS,
};
use acct_codes::fault::NCA_S_UNK_IF;
use acct_codes::limit::{MOST_CONTEXTS, MOST_STUB};
use acct_codes::pdu_header::{PFC_FIRST_FRAG, PFC_LAST_FRAG};
use rpc_pdu::{Element, NoMemory, Pdu};
use std::alloc::{AllocError, Global};

/// A whole request, on the context that was accepted with its id: the interface is that of the context, and `size` is
/// that of the fragments of its reply in bytes.
#[derive(Debug, Drop)]
pub struct Request {
    pub id: u32,
    pub context: u16,
    pub face: Face,
    pub opnum: u16,
    pub size: u16,
    pub stub: Seq<u8>,
}

/// What a client's PDU asks for.
#[derive(Debug, Drop)]
pub enum Act {
    /// It is answered by these bytes, without a call.
    Answered {
        bytes: Seq<u8>,
    },
    /// It is a whole request.
    Call(Request),
    /// The PDU is refused and nothing more is heard. The place counts bytes from the stream's start. The causes
    /// are those of `acct_codes::cause`: those of `read_pdu`; a first fragment while another request is gathered; a
    /// later fragment while none with its call id is; a stub of more than 1,048,576 bytes; a bind after a bind, or
    /// another type before it; more than 16 accepted contexts.
    Closed {
        place: u64,
        cause: u8,
        bytes: Seq<u8>,
    },
}

/// The largest fragments that are sent and received, in bytes.
#[derive(Clone, Copy, Debug, PartialEq, Eq)]
pub struct Sizes {
    pub xmit: u16,
    pub recv: u16,
}

/// A request of which not all fragments have come.
#[derive(Debug, Drop)]
pub struct PartialRequest {
    pub id: u32,
    pub context: u16,
    pub opnum: u16,
    pub stub: Seq<u8>,
}

/// What a bind made of a connection.
#[derive(Debug, Drop)]
pub struct Association {
    pub sizes: Sizes,
    pub contexts: Seq<Context>,
    pub partial: Option<PartialRequest>,
}

/// How a connection stands between two of its PDUs.
#[derive(Debug, Drop)]
pub enum Session {
    /// No bind has come.
    Unbound,
    Bound(Association),
}

/// What a whole PDU does.
#[derive(Drop)]
pub enum Step {
    /// It is refused with this cause.
    Refuses(u8),
    /// It gives an act or none, and leaves the session so.
    Goes { act: Option<Act>, session: Session },
}

fn binds(after: Association, answer: Seq<u8>) -> Step
    ensures { result ≡ binds after answer }
{
    if after.contexts.as_slice().len() > MOST_CONTEXTS {
        drop(after);
        drop(answer);
        return Step::Refuses(CAUSE_TOO_MANY_CONTEXTS);
    }
    Step::Goes {
        act: Some(Act::Answered { bytes: answer }),
        session: Session::Bound(after),
    }
}

fn asked(
    alloc: Global,
    request: PartialRequest,
    size: u16,
    context: Option<Context>,
) -> Result<Act, NoMemory>
    ensures { IfOk result (λ act. act ≡ asked request size context) }
{
    match context {
        None => {
            let fault = fault_bytes(request.id, request.context, NCA_S_UNK_IF);
            drop(request);
            Ok(Act::Answered {
                bytes: Seq::copy_of(alloc, &fault)?,
            })
        }
        Some(c) => Ok(Act::Call(Request {
            id: request.id,
            context: request.context,
            face: c.face,
            opnum: request.opnum,
            size,
            stub: request.stub,
        })),
    }
}

/// Whether the flags of a request or a response mark the first fragment.
pub fn is_first(flags: u8) -> bool
    ensures { result ≡ not (bit_and flags pfc_first_frag == 0) }
{
    flags & PFC_FIRST_FRAG != 0
}

/// Whether they mark the last fragment.
pub fn is_last(flags: u8) -> bool
    ensures { result ≡ not (bit_and flags pfc_last_frag == 0) }
{
    flags & PFC_LAST_FRAG != 0
}

/// A request with one more fragment: it waits for the others, or is whole.
fn put(
    alloc: Global,
    association: Association,
    flags: u8,
    request: PartialRequest,
) -> Result<Step, NoMemory>
    requires { length request.stub ≤ most_stub }
    ensures { IfOk result (λ step. step ≡ gathers association flags request) }
{
    let Association {
        sizes,
        contexts,
        partial,
    } = association;
    drop(partial);
    if !is_last(flags) {
        return Ok(Step::Goes {
            act: None,
            session: Session::Bound(Association {
                sizes,
                contexts,
                partial: Some(request),
            }),
        });
    }
    let context = face_at(request.context, contexts.as_slice());
    match asked(alloc, request, sizes.xmit, context) {
        Ok(act) => Ok(Step::Goes {
            act: Some(act),
            session: Session::Bound(Association {
                sizes,
                contexts,
                partial: None,
            }),
        }),
        Err(AllocError) => {
            drop(contexts);
            Err(AllocError)
        }
    }
}

/// The first fragment of a request.
fn begins(
    alloc: Global,
    association: Association,
    flags: u8,
    request: PartialRequest,
) -> Result<Step, NoMemory>
    ensures { IfOk result (λ step. step ≡ begins association flags request association.partial) }
{
    if association.partial.is_some() {
        drop(association);
        drop(request);
        return Ok(Step::Refuses(CAUSE_FIRST_TWICE));
    }
    if request.stub.as_slice().len() > MOST_STUB {
        drop(association);
        drop(request);
        return Ok(Step::Refuses(CAUSE_STUB_TOO_LONG));
    }
    put(alloc, association, flags, request)
}

/// A later fragment, for the request gathered so far.
fn more(
    alloc: Global,
    association: Association,
    flags: u8,
    request: PartialRequest,
    id: u32,
    stub: &[u8],
) -> Result<Step, NoMemory>
    ensures { IfOk result (λ step. step ≡ goes_on association flags id stub.now (Some request)) }
{
    if request.id != id {
        drop(association);
        drop(request);
        return Ok(Step::Refuses(CAUSE_NO_FIRST));
    }
    if stub.len() > MOST_STUB || request.stub.as_slice().len() > MOST_STUB - stub.len() {
        drop(association);
        drop(request);
        return Ok(Step::Refuses(CAUSE_STUB_TOO_LONG));
    }
    let PartialRequest {
        id,
        context,
        opnum,
        stub: gathered,
    } = request;
    match extended(gathered, stub) {
        Ok(stub) => {
            let request = PartialRequest {
                id,
                context,
                opnum,
                stub,
            };
            put(alloc, association, flags, request)
        }
        Err(AllocError) => {
            drop(association);
            Err(AllocError)
        }
    }
}

fn goes_on(
    alloc: Global,
    association: Association,
    flags: u8,
    id: u32,
    stub: &[u8],
) -> Result<Step, NoMemory>
    ensures { IfOk result (λ step. step ≡ goes_on association flags id stub.now association.partial) }
{
    let Association {
        sizes,
        contexts,
        partial,
    } = association;
    let association = Association {
        sizes,
        contexts,
        partial: None,
    };
    match partial {
        None => {
            drop(association);
            Ok(Step::Refuses(CAUSE_NO_FIRST))
        }
        Some(request) => more(alloc, association, flags, request, id, stub),
    }
}

/// A session without the request that is gathered with a call id.
fn dropped(association: Association, id: u32) -> Association
    ensures { result ≡ record association { partial = without id association.partial } }
{
    let Association {
        sizes,
        contexts,
        partial,
    } = association;
    let kept = match partial {
        None => None,
        Some(request) => {
            if request.id == id {
                None
            } else {
                Some(request)
            }
        }
    };
    Association {
        sizes,
        contexts,
        partial: kept,
    }
}

/// An association with the contexts of these elements, and the answer to them.
fn accepts(
    association: Association,
    elements: &[Element],
    answer: Seq<u8>,
) -> Result<Step, NoMemory>
    ensures { IfOk result (λ step. step ≡ binds
        (record association { contexts = with_elements association.contexts elements.now }) answer) }
{
    let Association {
        sizes,
        contexts,
        partial,
    } = association;
    match with_elements(contexts, elements) {
        Ok(contexts) => {
            let after = Association {
                sizes,
                contexts,
                partial,
            };
            Ok(binds(after, answer))
        }
        Err(AllocError) => {
            drop(partial);
            drop(answer);
            Err(AllocError)
        }
    }
}

/// What a bind does where there is no association yet.
fn bound(
    alloc: Global,
    conn: u32,
    id: u32,
    sizes: Sizes,
    elements: &[Element],
) -> Result<Step, NoMemory>
    requires { length elements.now ≤ 255 }
    ensures { IfOk result (λ step. step ≡ binds
        (record { sizes = sizes; contexts = with_elements [] elements.now; partial = None })
        (bind_answer conn id sizes elements.now)) }
{
    let answer = bind_answer(alloc, conn, id, sizes, elements)?;
    let fresh = Association {
        sizes,
        contexts: Seq::new(alloc),
        partial: None,
    };
    accepts(fresh, elements, answer)
}

/// What an alter_context does to an association.
fn altered(
    alloc: Global,
    conn: u32,
    id: u32,
    association: Association,
    elements: &[Element],
) -> Result<Step, NoMemory>
    requires { length elements.now ≤ 255 }
    ensures { IfOk result (λ step. step ≡ binds
        (record association { contexts = with_elements association.contexts elements.now })
        (alter_answer conn id association.sizes elements.now)) }
{
    match alter_answer(alloc, conn, id, association.sizes, elements) {
        Ok(answer) => accepts(association, elements, answer),
        Err(AllocError) => {
            drop(association);
            Err(AllocError)
        }
    }
}

#[tactic(auto, unfolding(crate::specs::Sessions::taken_first))]
fn taken_first(alloc: Global, conn: u32, pdu: Pdu) -> Result<Step, NoMemory>
    requires { HasFewParts pdu }
    ensures { IfOk result (λ step. step ≡ taken_first conn pdu) }
{
    match pdu {
        Pdu::Bind {
            id,
            xmit,
            recv,
            elements,
            ..
        } => {
            let step = bound(alloc, conn, id, sizes_for(xmit, recv), elements.as_slice());
            drop(elements);
            step
        }
        _ => {
            drop(pdu);
            Ok(Step::Refuses(CAUSE_BIND_ORDER))
        }
    }
}

#[tactic(auto, unfolding(crate::specs::Sessions::taken_later))]
fn taken_later(
    alloc: Global,
    conn: u32,
    association: Association,
    pdu: Pdu,
) -> Result<Step, NoMemory>
    requires { HasFewParts pdu }
    ensures { IfOk result (λ step. step ≡ taken_later conn association pdu) }
{
    match pdu {
        Pdu::Alter { id, elements, .. } => {
            let step = altered(alloc, conn, id, association, elements.as_slice());
            drop(elements);
            step
        }
        Pdu::Request {
            id,
            flags,
            context,
            opnum,
            stub,
        } => {
            if !is_first(flags) {
                let step = goes_on(alloc, association, flags, id, stub.as_slice());
                drop(stub);
                return step;
            }
            let request = PartialRequest {
                id,
                context,
                opnum,
                stub,
            };
            begins(alloc, association, flags, request)
        }
        Pdu::Cancel { .. } => {
            drop(pdu);
            Ok(Step::Goes {
                act: None,
                session: Session::Bound(association),
            })
        }
        Pdu::Orphaned { id } => {
            drop(pdu);
            Ok(Step::Goes {
                act: None,
                session: Session::Bound(dropped(association, id)),
            })
        }
        _ => {
            drop(pdu);
            drop(association);
            Ok(Step::Refuses(CAUSE_BIND_ORDER))
        }
    }
}

/// What a whole PDU does.
pub fn take_pdu(alloc: Global, conn: u32, session: Session, pdu: Pdu) -> Result<Step, NoMemory>
    requires { HasFewParts pdu }
    ensures { IfOk result (λ step. step ≡ taken conn session pdu) }
{
    match session {
        Session::Unbound => taken_first(alloc, conn, pdu),
        Session::Bound(association) => taken_later(alloc, conn, association, pdu),
    }
}
