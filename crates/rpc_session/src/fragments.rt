// A stub cut into fragments: the responses of a reply, and the requests of a client's call.
ghost use Rattle.std.specs.Prelude.{◌≡◌, ◌++◌, ◌≤◌, ◌<◌, true, length, min, IfOk, OnOk};
ghost use Rattle.acct_codes.specs.Limits.{least_fragment, most_fragment};
ghost use Rattle.rpc_session.specs.Answers.{cut_stub, first_flag, fragment, most_of};

use acct_base::{front_of, rest_of};
use acct_codes::pdu_header::{
    DREP_IEEE, DREP_LITTLE_ENDIAN_ASCII, PFC_FIRST_FRAG, PFC_LAST_FRAG, RPC_VERS, RPC_VERS_MINOR,
};
use rpc_pdu::{NoMemory, u16_bytes, u32_bytes};
use std::alloc::Global;

/// What all fragments of a stub have: the type of their PDUs, the call id, the context, and the opnum, which is 0 in
/// responses.
#[derive(Clone, Copy, Debug, PartialEq, Eq)]
pub struct FragmentHead {
    pub ptype: u8,
    pub id: u32,
    pub context: u16,
    pub opnum: u16,
}

/// A fragment with a part of the stub, written after what is there. `left` is the number of stub bytes that are left
/// with this part.
#[tactic(auto, unfolding(crate::specs::Answers::fragment))]
fn push_fragment(
    out: &mut Vec<u8>,
    head: FragmentHead,
    flags: u8,
    left: usize,
    part: &[u8],
) -> Result<(), NoMemory>
    requires { length part.now < 8192 }
    ensures { OnOk result (out.new.items ≡ out.old.items ++ fragment head flags left part.now) }
{
    let size = u16_bytes(24 + part.len() as u16);
    let call = u32_bytes(head.id);
    let hint = u32_bytes(hint_of(left));
    let on = u16_bytes(head.context);
    let operation = u16_bytes(head.opnum);
    out.extend_from_slice(&[
        RPC_VERS,
        RPC_VERS_MINOR,
        head.ptype,
        flags,
        DREP_LITTLE_ENDIAN_ASCII,
        DREP_IEEE,
        0,
        0,
        size[0],
        size[1],
        0,
        0,
        call[0],
        call[1],
        call[2],
        call[3],
        hint[0],
        hint[1],
        hint[2],
        hint[3],
        on[0],
        on[1],
        operation[0],
        operation[1],
    ])?;
    out.extend_from_slice(part)
}

/// The number of stub bytes that are left, as far as 32 bits tell it.
fn hint_of(left: usize) -> u32
    ensures { result ≡ min left 0xFFFFFFFF }
{
    if left < 0xFFFFFFFF {
        left as u32
    } else {
        0xFFFFFFFF
    }
}

/// The flag of a fragment that isn't the last: whether it is the first.
fn first_flag(first: bool) -> u8
    ensures value { result ≡ first_flag first }
    ensures small { result ≤ 1 }
{
    if first { PFC_FIRST_FRAG } else { 0 }
}

/// The fragments that bring a stub, each of at most `size` bytes.
pub fn cut_stub(
    alloc: Global,
    head: FragmentHead,
    size: u16,
    stub: &[u8],
) -> Result<Vec<u8>, NoMemory>
    requires low { least_fragment ≤ size }
    requires high { size ≤ most_fragment }
    ensures { IfOk result (λ bytes. bytes.items ≡ cut_stub (fragment head) (most_of size) true stub.now) }
{
    let most = 8 * ((size as usize - 24) / 8);
    let mut out = Vec::new(alloc);
    let mut first = true;
    let mut rest = stub;
    while rest.len() > most {
        let part = front_of(rest, most);
        push_fragment(&mut out, head, first_flag(first), rest.len(), part)?;
        rest = rest_of(rest, most);
        first = false;
    }
    let flags = first_flag(first) + PFC_LAST_FRAG;
    push_fragment(&mut out, head, flags, rest.len(), rest)?;
    Ok(out)
}
