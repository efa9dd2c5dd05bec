// Writing the bytes of a descriptor.
ghost use Rattle.std.specs.Prelude.{◌≡◌, ◌++◌, ◌+◌, ◌≤◌, length, IfOk, OnOk, Ok, IsTrue, ◌↔◌};
ghost use Rattle.dtyp_sid.specs.Sids.{bytes_of};
ghost use Rattle.dtyp_access.specs.Parts.{HasFewAces, has_few_aces, descriptor_bytes, parts_bytes, header_bytes};
ghost use Rattle.dtyp_access.specs.Parts.{sid_bytes, list_bytes, acl_bytes, ace_bytes, aces_bytes, type_of, control_of};
ghost use Rattle.dtyp_access.specs.Parts.{offset_if};
ghost use Rattle.dtyp_access.specs.Reading.{parts_of_bytes, descriptor_of_bytes};

use crate::laws::{written_bytes_are_read, written_parts_are_read};
use crate::{Ace, AceKind, Acl, Descriptor, Parts};
use acct_base::{push_u16, push_u32};
use acct_codes::descriptor_control::{SE_DACL_PRESENT, SE_SELF_RELATIVE};
use acct_codes::descriptor_part::{
    ACCESS_ALLOWED_ACE_TYPE, ACCESS_DENIED_ACE_TYPE, ACL_REVISION, SECURITY_DESCRIPTOR_REVISION,
};
use dtyp_sid::Sid;
use dtyp_sid::laws::written_bytes_have_lengths;
use std::alloc::{AllocError, Global};

/// The bytes of a descriptor in its self-relative form (MS-DTYP 2.4.6): the header, the owner, the group and the list,
/// without gaps. They are read back as the same descriptor. The list may have at most 800 entries.
pub fn write_descriptor(alloc: Global, d: &Descriptor) -> Result<Vec<u8>, AllocError>
    requires { HasFewAces d.now.acl }
    ensures written { IfOk result (λ bytes. bytes.items ≡ descriptor_bytes d.now) }
    ensures read_back { IfOk result (λ bytes. descriptor_of_bytes bytes.items ≡ Ok d.now) }
{
    d.keeps_limits();
    written_bytes_are_read();
    bytes_of_parts(alloc, &Some(d.owner), &d.group, &d.acl)
}

/// The bytes of parts in the same form, in whose header the offset of each part that is absent is 0. They are read back
/// as the same parts. The list may have at most 800 entries.
pub fn write_parts(alloc: Global, parts: &Parts) -> Result<Vec<u8>, AllocError>
    requires { HasFewAces parts.now.acl }
    ensures written { IfOk result (λ bytes. bytes.items ≡ parts_bytes parts.now) }
    ensures read_back { IfOk result (λ bytes. parts_of_bytes bytes.items ≡ Ok parts.now) }
{
    parts.keep_limits();
    written_parts_are_read();
    bytes_of_parts(alloc, &parts.owner, &parts.group, &parts.acl)
}

/// Whether a list, where there is one, has at most 800 entries, so that its size fits its field.
pub fn has_few_aces(acl: &Option<Acl>) -> bool
    ensures value { result ≡ has_few_aces acl.now }
    ensures few { IsTrue result ↔ HasFewAces acl.now }
{
    match acl {
        Some(acl) => acl.aces().len() <= 800,
        None => true,
    }
}

#[tactic(auto, unfolding(crate::specs::Parts::parts_bytes))]
fn bytes_of_parts(
    alloc: Global,
    owner: &Option<Sid>,
    group: &Option<Sid>,
    acl: &Option<Acl>,
) -> Result<Vec<u8>, AllocError>
    requires { HasFewAces acl.now }
    ensures { IfOk result (λ bytes.
        bytes.items ≡ parts_bytes (record { owner = owner.now; group = group.now; acl = acl.now })) }
{
    let mut out = Vec::new(alloc);
    push_header(&mut out, owner, group, acl)?;
    push_if_any(&mut out, owner)?;
    push_if_any(&mut out, group)?;
    push_list(&mut out, acl)?;
    Ok(out)
}

/// Adds the header: the revision, the control bits, and the offsets of owner, group, auditing list and list.
fn push_header(
    out: &mut Vec<u8>,
    owner: &Option<Sid>,
    group: &Option<Sid>,
    acl: &Option<Acl>,
) -> Result<(), AllocError>
    ensures { OnOk result (out.new.items ≡ out.old.items
        ++ header_bytes (record { owner = owner.now; group = group.now; acl = acl.now })) }
{
    let behind_owner = 20 + size_if_any(owner);
    let behind_group = behind_owner + size_if_any(group);
    push(out, &[SECURITY_DESCRIPTOR_REVISION, 0])?;
    push_u16(out, control_of(acl))?;
    push_u32(out, offset_if(owner.is_some(), 20))?;
    push_u32(out, offset_if(group.is_some(), behind_owner))?;
    push_u32(out, 0)?;
    push_u32(out, offset_if(acl.is_some(), behind_group))?;
    Ok(())
}

/// Where a part begins, 0 where it is absent.
fn offset_if(there: bool, place: u32) -> u32
    ensures { result ≡ offset_if there place }
{
    if there { place } else { 0 }
}

/// The control bits: self-relative, and that there is a list.
fn control_of(acl: &Option<Acl>) -> u16
    ensures { result ≡ control_of acl.now }
{
    match acl {
        Some(_) => SE_SELF_RELATIVE + SE_DACL_PRESENT,
        None => SE_SELF_RELATIVE,
    }
}

#[tactic(auto, unfolding(crate::specs::Parts::sid_bytes))]
fn push_if_any(out: &mut Vec<u8>, sid: &Option<Sid>) -> Result<(), AllocError>
    ensures { OnOk result (out.new.items ≡ out.old.items ++ sid_bytes sid.now) }
{
    if let Some(sid) = sid {
        push_sid(out, sid)?;
    }
    Ok(())
}

#[tactic(auto, unfolding(crate::specs::Parts::list_bytes))]
fn push_list(out: &mut Vec<u8>, acl: &Option<Acl>) -> Result<(), AllocError>
    requires { HasFewAces acl.now }
    ensures { OnOk result (out.new.items ≡ out.old.items ++ list_bytes acl.now) }
{
    if let Some(acl) = acl {
        push_acl(out, acl.aces())?;
    }
    Ok(())
}

/// Adds a list: its revision, its size, the count of its entries, and the entries.
#[tactic(auto, unfolding(crate::specs::Parts::acl_bytes))]
fn push_acl(out: &mut Vec<u8>, aces: &[Ace]) -> Result<(), AllocError>
    requires { length aces.now ≤ 800 }
    ensures { OnOk result (out.new.items ≡ out.old.items ++ acl_bytes aces.now) }
{
    push(out, &[ACL_REVISION, 0])?;
    push_u16(out, acl_size(aces))?;
    push_u16(out, aces.len() as u16)?;
    push(out, &[0, 0])?;
    push_aces(out, aces)
}

/// The size of a list.
fn acl_size(aces: &[Ace]) -> u16
    requires { length aces.now ≤ 800 }
    ensures { result ≡ 8 + length (aces_bytes aces.now) }
{
    let mut size = 8;
    for ace in aces {
        size += ace_size(ace);
    }
    size
}

fn push_aces(out: &mut Vec<u8>, aces: &[Ace]) -> Result<(), AllocError>
    ensures { OnOk result (out.new.items ≡ out.old.items ++ aces_bytes aces.now) }
{
    for ace in aces {
        push_ace(out, ace)?;
    }
    Ok(())
}

/// Adds an entry: type, flags, its size, mask and SID.
#[tactic(auto, unfolding(crate::specs::Parts::ace_bytes))]
fn push_ace(out: &mut Vec<u8>, ace: &Ace) -> Result<(), AllocError>
    ensures { OnOk result (out.new.items ≡ out.old.items ++ ace_bytes ace.now) }
{
    push(out, &[type_of(ace.kind), ace.flags])?;
    push_u16(out, ace_size(ace))?;
    push_u32(out, ace.mask)?;
    push_sid(out, &ace.sid)
}

/// The type byte of an entry.
fn type_of(kind: AceKind) -> u8
    ensures { result ≡ type_of kind }
{
    match kind {
        AceKind::Allow => ACCESS_ALLOWED_ACE_TYPE,
        AceKind::Deny => ACCESS_DENIED_ACE_TYPE,
    }
}

/// The size of an entry.
fn ace_size(ace: &Ace) -> u16
    ensures size { result ≡ 8 + length (bytes_of ace.now.sid) }
    ensures small { result ≤ 76 }
{
    8 + sid_size(&ace.sid) as u16
}

/// The number of bytes of an owner or a group, 0 where there is none.
#[tactic(auto, unfolding(crate::specs::Parts::sid_bytes))]
fn size_if_any(sid: &Option<Sid>) -> u32
    ensures size { result ≡ length (sid_bytes sid.now) }
    ensures small { result ≤ 68 }
{
    match sid {
        Some(sid) => sid_size(sid),
        None => 0,
    }
}

/// The number of bytes of a SID.
fn sid_size(sid: &Sid) -> u32
    ensures size { result ≡ length (bytes_of sid.now) }
    ensures small { result ≤ 68 }
{
    written_bytes_have_lengths();
    8 + 4 * sid.subs().len() as u32
}

fn push_sid(out: &mut Vec<u8>, sid: &Sid) -> Result<(), AllocError>
    ensures { OnOk result (out.new.items ≡ out.old.items ++ bytes_of sid.now) }
{
    written_bytes_have_lengths();
    let mut bytes = [0; 68];
    let size = sid.to_bytes(&mut bytes);
    push(out, &bytes[..size])
}

fn push(out: &mut Vec<u8>, bytes: &[u8]) -> Result<(), AllocError>
    ensures { OnOk result (out.new.items ≡ out.old.items ++ bytes.now) }
{
    out.extend_from_slice(bytes)?;
    Ok(())
}
