// What a whole PDU says, by its type.
ghost use Rattle.std.specs.Prelude.{◌≡◌, ◌≤◌, length, slice_index, nat_lt};
ghost use Rattle.rpc_pdu.specs.Headers.{least_length};
ghost use Rattle.acct_base.specs.Reading.{ReadsWhole};
ghost use Rattle.rpc_pdu.specs.Bodies.{stub_place, bind_of, alter_of, request_of, response_of, outcomes_place};
ghost use Rattle.rpc_pdu.specs.Bodies.{outcomes_in, outcome_count, bind_ack_of, alter_resp_of, fault_of, body_of};
ghost use Rattle.rpc_pdu.specs.Bodies.{takes_memory, WantsOnlyIf};

use crate::headers::{Kind, has_object};
use crate::lists::{read_elements, read_outcomes};
use crate::numbers::{u16_at, u32_at};
use crate::pdus::{Outcome, Pdu};
use acct_base::{Fields, Seq, Unread, rest_of};
use std::alloc::Global;

#[tactic(auto, unfolding(crate::specs::Bodies::bind_of))]
fn bind_of(alloc: Global, bytes: &[u8]) -> Result<Pdu, Unread>
    requires { 28 ≤ length bytes.now }
    ensures says { ReadsWhole result (bind_of bytes.now) }
    ensures wants { WantsOnlyIf (takes_memory Kind.Bind bytes.now) result }
{
    let elements = read_elements(alloc, &mut Fields::new(rest_of(bytes, 28)), bytes[24])?;
    Ok(Pdu::Bind {
        id: u32_at(bytes, 12),
        xmit: u16_at(bytes, 16),
        recv: u16_at(bytes, 18),
        group: u32_at(bytes, 20),
        elements,
    })
}

#[tactic(auto, unfolding(crate::specs::Bodies::alter_of))]
fn alter_of(alloc: Global, bytes: &[u8]) -> Result<Pdu, Unread>
    requires { 28 ≤ length bytes.now }
    ensures says { ReadsWhole result (alter_of bytes.now) }
    ensures wants { WantsOnlyIf (takes_memory Kind.Alter bytes.now) result }
{
    let elements = read_elements(alloc, &mut Fields::new(rest_of(bytes, 28)), bytes[24])?;
    Ok(Pdu::Alter {
        id: u32_at(bytes, 12),
        xmit: u16_at(bytes, 16),
        recv: u16_at(bytes, 18),
        group: u32_at(bytes, 20),
        elements,
    })
}

/// Where the number of outcomes stands.
fn outcomes_place(bytes: &[u8]) -> usize
    requires { 26 ≤ length bytes.now }
    ensures { result ≡ outcomes_place bytes.now }
{
    (u16_at(bytes, 24) as usize + 29) / 4 * 4
}

#[tactic(auto, unfolding(crate::specs::Bodies::outcomes_in))]
fn outcomes_in(alloc: Global, bytes: &[u8]) -> Result<Seq<Outcome>, Unread>
    requires { 26 ≤ length bytes.now }
    ensures says { ReadsWhole result (outcomes_in bytes.now) }
    ensures wants { WantsOnlyIf (nat_lt 0 (outcome_count bytes.now)) result }
{
    let place = outcomes_place(bytes);
    if bytes.len() < place + 4 {
        return Err(Unread::Misspelled);
    }
    read_outcomes(
        alloc,
        &mut Fields::new(rest_of(bytes, place + 4)),
        bytes[place],
    )
}

#[tactic(auto, unfolding(crate::specs::Bodies::bind_ack_of))]
fn bind_ack_of(alloc: Global, bytes: &[u8]) -> Result<Pdu, Unread>
    requires { 26 ≤ length bytes.now }
    ensures says { ReadsWhole result (bind_ack_of bytes.now) }
    ensures wants { WantsOnlyIf (takes_memory Kind.BindAck bytes.now) result }
{
    let outcomes = outcomes_in(alloc, bytes)?;
    Ok(Pdu::BindAck {
        id: u32_at(bytes, 12),
        xmit: u16_at(bytes, 16),
        recv: u16_at(bytes, 18),
        group: u32_at(bytes, 20),
        outcomes,
    })
}

#[tactic(auto, unfolding(crate::specs::Bodies::alter_resp_of))]
fn alter_resp_of(alloc: Global, bytes: &[u8]) -> Result<Pdu, Unread>
    requires { 26 ≤ length bytes.now }
    ensures says { ReadsWhole result (alter_resp_of bytes.now) }
    ensures wants { WantsOnlyIf (takes_memory Kind.AlterResp bytes.now) result }
{
    let outcomes = outcomes_in(alloc, bytes)?;
    Ok(Pdu::AlterResp {
        id: u32_at(bytes, 12),
        xmit: u16_at(bytes, 16),
        recv: u16_at(bytes, 18),
        group: u32_at(bytes, 20),
        outcomes,
    })
}

/// Where the stub of a request begins.
fn stub_place(flags: u8) -> usize
    ensures { result ≡ stub_place flags }
{
    if has_object(flags) { 40 } else { 24 }
}

fn request_of(alloc: Global, bytes: &[u8]) -> Result<Pdu, Unread>
    requires { least_length Kind.Request (slice_index bytes.now 3) ≤ length bytes.now }
    ensures says { ReadsWhole result (request_of bytes.now) }
    ensures wants { WantsOnlyIf (takes_memory Kind.Request bytes.now) result }
{
    let flags = bytes[3];
    Ok(Pdu::Request {
        id: u32_at(bytes, 12),
        flags,
        context: u16_at(bytes, 20),
        opnum: u16_at(bytes, 22),
        stub: Seq::copy_of(alloc, rest_of(bytes, stub_place(flags)))?,
    })
}

fn response_of(alloc: Global, bytes: &[u8]) -> Result<Pdu, Unread>
    requires { 24 ≤ length bytes.now }
    ensures says { ReadsWhole result (response_of bytes.now) }
    ensures wants { WantsOnlyIf (takes_memory Kind.Response bytes.now) result }
{
    Ok(Pdu::Response {
        id: u32_at(bytes, 12),
        flags: bytes[3],
        context: u16_at(bytes, 20),
        hint: u32_at(bytes, 16),
        stub: Seq::copy_of(alloc, rest_of(bytes, 24))?,
    })
}

fn fault_of(bytes: &[u8]) -> Pdu
    requires { 28 ≤ length bytes.now }
    ensures { result ≡ fault_of bytes.now }
{
    Pdu::Fault {
        id: u32_at(bytes, 12),
        context: u16_at(bytes, 20),
        status: u32_at(bytes, 24),
    }
}

/// What a whole PDU says, if its body has a reading.
#[tactic(auto, unfolding(crate::specs::Bodies::body_of))]
pub fn body_of(alloc: Global, kind: Kind, bytes: &[u8]) -> Result<Pdu, Unread>
    requires header { 16 ≤ length bytes.now }
    requires long { least_length kind (slice_index bytes.now 3) ≤ length bytes.now }
    ensures says { ReadsWhole result (body_of kind bytes.now) }
    ensures wants { WantsOnlyIf (takes_memory kind bytes.now) result }
{
    match kind {
        Kind::Request => request_of(alloc, bytes),
        Kind::Response => response_of(alloc, bytes),
        Kind::Fault => Ok(fault_of(bytes)),
        Kind::Bind => bind_of(alloc, bytes),
        Kind::Alter => alter_of(alloc, bytes),
        Kind::BindAck => bind_ack_of(alloc, bytes),
        Kind::AlterResp => alter_resp_of(alloc, bytes),
        Kind::BindNak => Ok(Pdu::BindNak {
            id: u32_at(bytes, 12),
            reason: u16_at(bytes, 16),
        }),
        Kind::Cancel => Ok(Pdu::Cancel {
            id: u32_at(bytes, 12),
        }),
        Kind::Orphaned => Ok(Pdu::Orphaned {
            id: u32_at(bytes, 12),
        }),
    }
}
