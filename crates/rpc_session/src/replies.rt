// The bytes that answer a call.
ghost use Rattle.std.specs.Prelude.{◌≡◌, ◌≤◌, IfOk};
ghost use Rattle.acct_codes.specs.Limits.{least_fragment, most_fragment};
ghost use Rattle.rpc_session.specs.Answers.{fault_bytes, reply_bytes};

use crate::fragments::{FragmentHead, cut_stub};
use acct_codes::pdu_header::{DREP_IEEE, DREP_LITTLE_ENDIAN_ASCII, RPC_VERS, RPC_VERS_MINOR};
use acct_codes::pdu_type::{PTYPE_FAULT, PTYPE_RESPONSE};
use rpc_pdu::{FAULT_FLAGS, NoMemory, u16_bytes, u32_bytes};
use std::alloc::Global;

/// A fault with a status, on a call and a context. It takes no memory.
pub fn fault_bytes(id: u32, context: u16, status: u32) -> [u8; 32]
    ensures { result ≡ fault_bytes id context status }
{
    let call = u32_bytes(id);
    let on = u16_bytes(context);
    let code = u32_bytes(status);
    [
        RPC_VERS,
        RPC_VERS_MINOR,
        PTYPE_FAULT,
        FAULT_FLAGS,
        DREP_LITTLE_ENDIAN_ASCII,
        DREP_IEEE,
        0,
        0,
        32,
        0,
        0,
        0,
        call[0],
        call[1],
        call[2],
        call[3],
        0,
        0,
        0,
        0,
        on[0],
        on[1],
        0,
        0,
        code[0],
        code[1],
        code[2],
        code[3],
        0,
        0,
        0,
        0,
    ]
}

/// The responses that bring a stub, each of at most `size` bytes.
pub fn reply_bytes(
    alloc: Global,
    id: u32,
    context: u16,
    size: u16,
    stub: &[u8],
) -> Result<Vec<u8>, NoMemory>
    requires low { least_fragment ≤ size }
    requires high { size ≤ most_fragment }
    ensures { IfOk result (λ bytes. bytes.items ≡ reply_bytes id context size stub.now) }
{
    let head = FragmentHead {
        ptype: PTYPE_RESPONSE,
        id,
        context,
        opnum: 0,
    };
    cut_stub(alloc, head, size, stub)
}
