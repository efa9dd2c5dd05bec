// The bytes that the client sends.
ghost use Rattle.std.specs.Prelude.{◌≡◌, ◌≤◌, IfOk};
ghost use Rattle.acct_codes.specs.Limits.{least_fragment, most_fragment};
ghost use Rattle.acct_client.specs.Requests.{context_of, offered, bind_bytes, request_bytes, AreOnePdu};

use crate::NoMemory;
use acct_base::Seq;
use acct_calls::Face;
use acct_codes::limit::MOST_FRAGMENT;
use acct_codes::pdu_type::PTYPE_REQUEST;
use rpc_pdu::{Element, Pdu, Syntax, lsarpc, ndr, samr, write_pdu};
use rpc_session::{FragmentHead, cut_stub};
use std::alloc::Global;

/// The context that the calls of an interface are made on.
pub fn context_of(face: Face) -> u16
    ensures { result ≡ context_of face }
{
    match face {
        Face::Samr => 0,
        Face::Lsa => 1,
    }
}

fn offered(alloc: Global, context: u16, subject: Syntax) -> Result<Element, NoMemory>
    ensures { IfOk result (λ element. element ≡ offered context subject) }
{
    let mut transfers = Seq::new(alloc);
    transfers.push(ndr())?;
    Ok(Element {
        context,
        subject,
        transfers,
    })
}

/// The one bind: both interfaces, SAMR on context 0 and LSARPC on context 1, with call id 1.
pub fn bind_bytes(alloc: Global) -> Result<Vec<u8>, NoMemory>
    ensures { IfOk result (λ bytes. bytes.items ≡ bind_bytes) }
{
    let mut elements = Seq::new(alloc);
    elements.push(offered(alloc, context_of(Face::Samr), samr())?)?;
    elements.push(offered(alloc, context_of(Face::Lsa), lsarpc())?)?;
    let bind = Pdu::Bind {
        id: 1,
        xmit: MOST_FRAGMENT,
        recv: MOST_FRAGMENT,
        group: 0,
        elements,
    };
    write_pdu(alloc, &bind)
}

/// The requests that bring a call's stub, each of at most `size` bytes.
pub fn request_bytes(
    alloc: Global,
    id: u32,
    face: Face,
    opnum: u16,
    size: u16,
    stub: &[u8],
) -> Result<Vec<u8>, NoMemory>
    requires low { least_fragment ≤ size }
    requires high { size ≤ most_fragment }
    ensures { IfOk result (λ bytes. bytes.items ≡ request_bytes id (context_of face) opnum size stub.now) }
{
    let head = FragmentHead {
        ptype: PTYPE_REQUEST,
        id,
        context: context_of(face),
        opnum,
    };
    cut_stub(alloc, head, size, stub)
}

/// A law: a stub that fits a fragment is brought by the one PDU that `write_pdu` writes.
pub fn short_stubs_are_one_pdu()
    ensures { AreOnePdu }
{}
