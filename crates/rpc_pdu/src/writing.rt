// The bytes of a PDU.
ghost use Rattle.std.specs.Prelude.{◌≡◌, [], ◌∷◌, ◌≤◌, ◌++◌, length, All, IfOk, OnOk};
ghost use Rattle.std.specs.List.{flat_map};
ghost use Rattle.rpc_pdu.specs.Written.{type_of, flags_of, call_id, size_of, header_bytes, element_bytes};
ghost use Rattle.rpc_pdu.specs.Written.{outcome_bytes, sizes_bytes, elements_bytes, outcomes_bytes, body_bytes};
ghost use Rattle.rpc_pdu.specs.Written.{written, HasFewTransfers, HasFewParts, IsWhole, IsWholeElement, IsWholeOutcome};
ghost use Rattle.rpc_pdu.specs.Written.{HasWholeIds};
ghost use Rattle.rpc_pdu.specs.Headers.{u16_bytes, u32_bytes, syntax_bytes};
ghost use Rattle.uuid.specs.Parts.{swap_fields};
ghost use Rattle.acct_codes.specs.Pdus.{rpc_vers, rpc_vers_minor};
ghost use Rattle.rpc_pdu.specs.Laws.{IsReadBack};

use crate::numbers::{push_bytes, push_u16, push_u32};
use crate::pdus::{Element, Outcome, Pdu};
use crate::syntaxes::Syntax;
use acct_codes::pdu_header::{
    DREP_IEEE, DREP_LITTLE_ENDIAN_ASCII, PFC_DID_NOT_EXECUTE, PFC_FIRST_FRAG, PFC_LAST_FRAG,
    RPC_VERS, RPC_VERS_MINOR,
};
use acct_codes::pdu_type;
use std::alloc::{AllocError, Global};
use uuid::Uuid;

/// The flags of a PDU that is its call's only fragment.
pub const WHOLE_FLAGS: u8 = PFC_FIRST_FRAG | PFC_LAST_FRAG;

/// The flags of a fault.
pub const FAULT_FLAGS: u8 = WHOLE_FLAGS | PFC_DID_NOT_EXECUTE;

/// Memory ran out.
pub type NoMemory = AllocError;

/// The number of the type.
fn type_of(pdu: &Pdu) -> u8
    ensures { result ≡ type_of pdu.now }
{
    match pdu {
        Pdu::Request { .. } => pdu_type::PTYPE_REQUEST,
        Pdu::Response { .. } => pdu_type::PTYPE_RESPONSE,
        Pdu::Fault { .. } => pdu_type::PTYPE_FAULT,
        Pdu::Bind { .. } => pdu_type::PTYPE_BIND,
        Pdu::BindAck { .. } => pdu_type::PTYPE_BIND_ACK,
        Pdu::BindNak { .. } => pdu_type::PTYPE_BIND_NAK,
        Pdu::Alter { .. } => pdu_type::PTYPE_ALTER_CONTEXT,
        Pdu::AlterResp { .. } => pdu_type::PTYPE_ALTER_CONTEXT_RESP,
        Pdu::Cancel { .. } => pdu_type::PTYPE_CO_CANCEL,
        Pdu::Orphaned { .. } => pdu_type::PTYPE_ORPHANED,
    }
}

fn flags_of(pdu: &Pdu) -> u8
    ensures { result ≡ flags_of pdu.now }
{
    match pdu {
        Pdu::Request { flags, .. } | Pdu::Response { flags, .. } => *flags,
        Pdu::Fault { .. } => FAULT_FLAGS,
        _ => WHOLE_FLAGS,
    }
}

fn call_id(pdu: &Pdu) -> u32
    ensures { result ≡ call_id pdu.now }
{
    match pdu {
        Pdu::Bind { id, .. }
        | Pdu::Alter { id, .. }
        | Pdu::Request { id, .. }
        | Pdu::Cancel { id }
        | Pdu::Orphaned { id }
        | Pdu::BindAck { id, .. }
        | Pdu::AlterResp { id, .. }
        | Pdu::BindNak { id, .. }
        | Pdu::Response { id, .. }
        | Pdu::Fault { id, .. } => *id,
    }
}

fn push_header(
    out: &mut Vec<u8>,
    ptype: u8,
    flags: u8,
    size: u16,
    id: u32,
) -> Result<(), AllocError>
    ensures { OnOk result (out.new.items ≡ out.old.items ++ header_bytes ptype flags size id) }
{
    push_bytes(
        out,
        &[
            RPC_VERS,
            RPC_VERS_MINOR,
            ptype,
            flags,
            DREP_LITTLE_ENDIAN_ASCII,
            DREP_IEEE,
            0,
            0,
        ],
    )?;
    push_u16(out, size)?;
    push_u16(out, 0)?;
    push_u32(out, id)
}

/// A UUID, its first three fields with the low byte first.
fn push_uuid(out: &mut Vec<u8>, id: &[u8; 16]) -> Result<(), AllocError>
    ensures bytes { OnOk result (out.new.items ≡ out.old.items ++ swap_fields id.now) }
    ensures whole { length id.now ≡ 16 }
{
    push_bytes(out, &Uuid::from_bytes_le(*id).into_bytes())
}

#[tactic(auto, unfolding(crate::specs::Headers::syntax_bytes))]
fn push_syntax(out: &mut Vec<u8>, syntax: &Syntax) -> Result<(), AllocError>
    ensures bytes { OnOk result (out.new.items ≡ out.old.items ++ syntax_bytes syntax.now) }
    ensures whole { IsWhole syntax.now }
{
    push_uuid(out, syntax.id.as_bytes())?;
    push_u32(out, syntax.version)
}

fn push_syntaxes(out: &mut Vec<u8>, syntaxes: &[Syntax]) -> Result<(), AllocError>
    ensures bytes { OnOk result
        (out.new.items ≡ out.old.items ++ flat_map syntax_bytes syntaxes.now) }
    ensures whole { OnOk result (All IsWhole syntaxes.now) }
{
    for syntax in syntaxes {
        push_syntax(out, syntax)?;
    }
    Ok(())
}

#[tactic(auto, unfolding(crate::specs::Written::element_bytes))]
fn push_element(out: &mut Vec<u8>, element: &Element) -> Result<(), AllocError>
    requires { HasFewTransfers element.now }
    ensures bytes { OnOk result (out.new.items ≡ out.old.items ++ element_bytes element.now) }
    ensures whole { OnOk result (IsWholeElement element.now) }
{
    let transfers = element.transfers.as_slice();
    push_u16(out, element.context)?;
    push_bytes(out, &[transfers.len() as u8, 0])?;
    push_syntax(out, &element.subject)?;
    push_syntaxes(out, transfers)
}

fn push_elements(out: &mut Vec<u8>, elements: &[Element]) -> Result<(), AllocError>
    requires { All HasFewTransfers elements.now }
    ensures bytes { OnOk result
        (out.new.items ≡ out.old.items ++ flat_map element_bytes elements.now) }
    ensures whole { OnOk result (All IsWholeElement elements.now) }
{
    for element in elements {
        push_element(out, element)?;
    }
    Ok(())
}

#[tactic(auto, unfolding(crate::specs::Written::outcome_bytes))]
fn push_outcome(out: &mut Vec<u8>, outcome: &Outcome) -> Result<(), AllocError>
    ensures bytes { OnOk result (out.new.items ≡ out.old.items ++ outcome_bytes outcome.now) }
    ensures whole { OnOk result (IsWholeOutcome outcome.now) }
{
    push_u16(out, outcome.result)?;
    push_u16(out, outcome.reason)?;
    push_syntax(out, &outcome.syntax)
}

fn push_outcomes(out: &mut Vec<u8>, outcomes: &[Outcome]) -> Result<(), AllocError>
    ensures bytes { OnOk result
        (out.new.items ≡ out.old.items ++ flat_map outcome_bytes outcomes.now) }
    ensures whole { OnOk result (All IsWholeOutcome outcomes.now) }
{
    for outcome in outcomes {
        push_outcome(out, outcome)?;
    }
    Ok(())
}

fn push_sizes(out: &mut Vec<u8>, xmit: u16, recv: u16, group: u32) -> Result<(), AllocError>
    ensures { OnOk result (out.new.items ≡ out.old.items ++ sizes_bytes xmit recv group) }
{
    push_u16(out, xmit)?;
    push_u16(out, recv)?;
    push_u32(out, group)
}

/// The number of elements, and the elements.
fn push_element_list(out: &mut Vec<u8>, elements: &[Element]) -> Result<(), AllocError>
    requires few { length elements.now ≤ 255 }
    requires few_transfers { All HasFewTransfers elements.now }
    ensures bytes { OnOk result (out.new.items ≡ out.old.items ++ elements_bytes elements.now) }
    ensures whole { OnOk result (All IsWholeElement elements.now) }
{
    push_bytes(out, &[elements.len() as u8, 0, 0, 0])?;
    push_elements(out, elements)
}

/// The number of outcomes, and the outcomes.
fn push_outcome_list(out: &mut Vec<u8>, outcomes: &[Outcome]) -> Result<(), AllocError>
    requires { length outcomes.now ≤ 255 }
    ensures bytes { OnOk result (out.new.items ≡ out.old.items ++ outcomes_bytes outcomes.now) }
    ensures whole { OnOk result (All IsWholeOutcome outcomes.now) }
{
    push_bytes(out, &[outcomes.len() as u8, 0, 0, 0])?;
    push_outcomes(out, outcomes)
}

fn push_request(out: &mut Vec<u8>, context: u16, opnum: u16, stub: &[u8]) -> Result<(), AllocError>
    requires { length stub.now ≤ 65511 }
    ensures { OnOk result (out.new.items ≡ out.old.items
        ++ (u32_bytes (length stub.now) ++ u16_bytes context ++ u16_bytes opnum ++ stub.now)) }
{
    push_u32(out, stub.len() as u32)?;
    push_u16(out, context)?;
    push_u16(out, opnum)?;
    push_bytes(out, stub)
}

fn push_response(out: &mut Vec<u8>, context: u16, hint: u32, stub: &[u8]) -> Result<(), AllocError>
    ensures { OnOk result (out.new.items ≡ out.old.items
        ++ (u32_bytes hint ++ u16_bytes context ++ 0 ∷ 0 ∷ stub.now)) }
{
    push_u32(out, hint)?;
    push_u16(out, context)?;
    push_bytes(out, &[0, 0])?;
    push_bytes(out, stub)
}

fn push_fault(out: &mut Vec<u8>, context: u16, status: u32) -> Result<(), AllocError>
    ensures { OnOk result (out.new.items ≡ out.old.items
        ++ (u32_bytes 0 ++ u16_bytes context ++ 0 ∷ 0 ∷ u32_bytes status ++ u32_bytes 0)) }
{
    push_u32(out, 0)?;
    push_u16(out, context)?;
    push_bytes(out, &[0, 0])?;
    push_u32(out, status)?;
    push_u32(out, 0)
}

/// What stands after the header of a bind and of an alter_context.
fn push_binding(
    out: &mut Vec<u8>,
    xmit: u16,
    recv: u16,
    group: u32,
    elements: &[Element],
) -> Result<(), AllocError>
    requires few { length elements.now ≤ 255 }
    requires few_transfers { All HasFewTransfers elements.now }
    ensures bytes { OnOk result
        (out.new.items ≡ out.old.items ++ (sizes_bytes xmit recv group ++ elements_bytes elements.now)) }
    ensures whole { OnOk result (All IsWholeElement elements.now) }
{
    push_sizes(out, xmit, recv, group)?;
    push_element_list(out, elements)
}

/// What stands after the header of their answers. `address` is the length of the secondary address: 1 for the empty
/// text with its zero byte, 0 where it is left out.
fn push_answer(
    out: &mut Vec<u8>,
    xmit: u16,
    recv: u16,
    group: u32,
    address: u8,
    outcomes: &[Outcome],
) -> Result<(), AllocError>
    requires { length outcomes.now ≤ 255 }
    ensures bytes { OnOk result (out.new.items ≡ out.old.items
        ++ (sizes_bytes xmit recv group ++ address ∷ 0 ∷ 0 ∷ 0 ∷ outcomes_bytes outcomes.now)) }
    ensures whole { OnOk result (All IsWholeOutcome outcomes.now) }
{
    push_sizes(out, xmit, recv, group)?;
    push_bytes(out, &[address, 0, 0, 0])?;
    push_outcome_list(out, outcomes)
}

/// What stands after the header of a bind_nak.
fn push_nak(out: &mut Vec<u8>, reason: u16) -> Result<(), AllocError>
    ensures { OnOk result
        (out.new.items ≡ out.old.items ++ (u16_bytes reason ++ 1 ∷ rpc_vers ∷ rpc_vers_minor ∷ 0 ∷ 0 ∷ 0 ∷ [])) }
{
    push_u16(out, reason)?;
    push_bytes(out, &[1, RPC_VERS, RPC_VERS_MINOR, 0, 0, 0])
}

/// What stands after the header.
#[tactic(auto, unfolding(crate::specs::Written::body_bytes))]
fn push_body(out: &mut Vec<u8>, pdu: &Pdu) -> Result<(), AllocError>
    requires parts { HasFewParts pdu.now }
    requires size { size_of pdu.now ≤ 65535 }
    ensures bytes { OnOk result (out.new.items ≡ out.old.items ++ body_bytes pdu.now) }
    ensures whole { OnOk result (HasWholeIds pdu.now) }
{
    match pdu {
        Pdu::Request {
            context,
            opnum,
            stub,
            ..
        } => push_request(out, *context, *opnum, stub.as_slice()),
        Pdu::Response {
            context,
            hint,
            stub,
            ..
        } => push_response(out, *context, *hint, stub.as_slice()),
        Pdu::Fault {
            context,
            status,
            ..
        } => push_fault(out, *context, *status),
        Pdu::Bind {
            xmit,
            recv,
            group,
            elements,
            ..
        }
        | Pdu::Alter {
            xmit,
            recv,
            group,
            elements,
            ..
        } => push_binding(out, *xmit, *recv, *group, elements.as_slice()),
        Pdu::BindAck {
            xmit,
            recv,
            group,
            outcomes,
            ..
        } => push_answer(out, *xmit, *recv, *group, 1, outcomes.as_slice()),
        Pdu::AlterResp {
            xmit,
            recv,
            group,
            outcomes,
            ..
        } => push_answer(out, *xmit, *recv, *group, 0, outcomes.as_slice()),
        Pdu::BindNak { reason, .. } => push_nak(out, *reason),
        Pdu::Cancel { .. } | Pdu::Orphaned { .. } => Ok(()),
    }
}

/// The bytes of a PDU (C706, section 12.6). The flags of a request or response are those of its value, an object UUID
/// isn't written, and a request's `alloc_hint` is the number of its stub bytes.
///
/// The side that reads the PDU's type gets it back, whatever follows (clause `back`).
#[tactic(auto, unfolding(crate::specs::Written::written))]
pub fn write_pdu(alloc: Global, pdu: &Pdu) -> Result<Vec<u8>, NoMemory>
    requires parts { HasFewParts pdu.now }
    requires size { size_of pdu.now ≤ 65535 }
    ensures bytes { IfOk result (λ bytes. bytes.items ≡ written pdu.now) }
    ensures back { OnOk result (IsReadBack pdu.now) }
{
    let mut body = Vec::new(alloc);
    push_body(&mut body, pdu)?;
    let mut out = Vec::new(alloc);
    let size = (16 + body.len()) as u16;
    push_header(&mut out, type_of(pdu), flags_of(pdu), size, call_id(pdu))?;
    push_bytes(&mut out, &body)?;
    Ok(out)
}
