// Reading a descriptor from its bytes.
ghost use Rattle.std.specs.Prelude.{◌≡◌, ◌+◌, ◌≤◌, length, nat_lt, true, false, IfOk, IfErr, Ok, Err};
ghost use Rattle.dtyp_sid.specs.Sids.{sid_of_bytes};
ghost use Rattle.dtyp_access.specs.Granted.{shares};
ghost use Rattle.dtyp_access.specs.Spelled.{SpellParts, SpellDescriptor};
ghost use Rattle.dtyp_access.specs.Reading.{ReadsAllIfRoom, OnlyAtList, OnlyWithEntry, WantsOnlyIf, NeverMemory};
ghost use Rattle.dtyp_access.specs.Reading.{descriptor_of_bytes, parts_of_bytes, parts_if, owner_of, sid_if_any};
ghost use Rattle.dtyp_access.specs.Reading.{sid_of_field, list_of, acl_at, aces_at};
ghost use Rattle.dtyp_access.specs.Reading.{ace_at, next_ace, kind_of, or_no_sid, has_entry, u16_at, u32_at};

use crate::laws::{read_bytes_spell, read_parts_spell};
use crate::{Ace, AceKind, Acl, DescError, Descriptor, Parts};
use acct_base::{front_u16, front_u32, rest_of};
use acct_codes::descriptor_control::{SE_DACL_PRESENT, SE_SELF_RELATIVE};
use acct_codes::descriptor_part::{
    ACCESS_ALLOWED_ACE_TYPE, ACCESS_DENIED_ACE_TYPE, ACL_REVISION, SECURITY_DESCRIPTOR_REVISION,
};
use dtyp_sid::Sid;
use std::alloc::Global;

/// The descriptor that bytes spell in its self-relative form (MS-DTYP 2.4.6), or the first reason that they spell none.
/// The auditing list isn't looked at.
pub fn read_descriptor(alloc: Global, bytes: &[u8]) -> Result<Descriptor, DescError>
    ensures answer { ReadsAllIfRoom result (descriptor_of_bytes bytes.now) }
    ensures spelled { IfOk result (λ d. SpellDescriptor bytes.now d) }
    ensures wants { OnlyAtList true result bytes.now }
{
    read_bytes_spell();
    owned_parts(alloc, bytes)
}

/// The parts that bytes spell, an owner among them.
#[tactic(auto, unfolding(crate::specs::Reading::descriptor_of_bytes))]
fn owned_parts(alloc: Global, bytes: &[u8]) -> Result<Descriptor, DescError>
    ensures answer { ReadsAllIfRoom result (descriptor_of_bytes bytes.now) }
    ensures wants { OnlyAtList true result bytes.now }
{
    let Parts { owner, group, acl } = parts_if(alloc, bytes, true)?;
    match owner {
        Some(owner) => Ok(Descriptor { owner, group, acl }),
        None => Err(DescError::Offset(4)),
    }
}

/// The parts that bytes spell in the self-relative form of a descriptor, which may have no owner, or the first reason
/// that they spell none. The auditing list isn't looked at.
pub fn read_parts(alloc: Global, bytes: &[u8]) -> Result<Parts, DescError>
    ensures answer { ReadsAllIfRoom result (parts_of_bytes bytes.now) }
    ensures spelled { IfOk result (λ parts. SpellParts bytes.now parts) }
    ensures wants { OnlyAtList false result bytes.now }
{
    read_parts_spell();
    parts_if(alloc, bytes, false)
}

/// The parts that bytes spell, where an owner is needed or none is.
#[tactic(auto, unfolding(crate::specs::Reading::parts_if))]
fn parts_if(alloc: Global, bytes: &[u8], needs_owner: bool) -> Result<Parts, DescError>
    ensures answer { ReadsAllIfRoom result (parts_if needs_owner bytes.now) }
    ensures wants { OnlyAtList needs_owner result bytes.now }
{
    if bytes.len() < 20 {
        return Err(DescError::Short(0));
    }
    if bytes[0] != SECURITY_DESCRIPTOR_REVISION {
        return Err(DescError::Revision(0));
    }
    if !is_set(u16_at(bytes, 2), SE_SELF_RELATIVE) {
        return Err(DescError::Offset(2));
    }
    let owner = owner_of(bytes, needs_owner)?;
    let group = sid_if_any(bytes, 8)?;
    let acl = list_of(alloc, bytes)?;
    Ok(Parts { owner, group, acl })
}

/// Whether the control bits have one.
#[tactic(auto, unfolding(crate::specs::Granted::shares))]
fn is_set(control: u16, bit: u16) -> bool
    ensures { result ≡ shares control bit }
{
    control & bit != 0
}

/// The SID that the offset in a field of the header points to.
#[tactic(auto, unfolding(crate::specs::Reading::sid_of_field))]
fn sid_of_field(bytes: &[u8], field: usize) -> Result<Sid, DescError>
    requires { field + 4 ≤ length bytes.now }
    ensures value { result ≡ sid_of_field field bytes.now }
    ensures wants { NeverMemory result }
{
    let offset = u32_at(bytes, field) as usize;
    if offset < 20 || bytes.len() < offset {
        return Err(DescError::Offset(field));
    }
    sid_at_front(rest_of(bytes, offset), offset)
}

/// The SID at the beginning of bytes that begin at a place.
fn sid_at_front(bytes: &[u8], place: usize) -> Result<Sid, DescError>
    ensures value { result ≡ or_no_sid place (sid_of_bytes bytes.now) }
    ensures wants { NeverMemory result }
{
    Sid::from_bytes(bytes).map_err(|_| DescError::Sid(place))
}

/// The same, where the SID is absent if the offset is 0.
#[tactic(auto, unfolding(crate::specs::Reading::sid_if_any))]
fn sid_if_any(bytes: &[u8], field: usize) -> Result<Option<Sid>, DescError>
    requires { field + 4 ≤ length bytes.now }
    ensures value { result ≡ sid_if_any field bytes.now }
    ensures wants { NeverMemory result }
{
    if u32_at(bytes, field) == 0 {
        return Ok(None);
    }
    Ok(Some(sid_of_field(bytes, field)?))
}

/// The owner, which may be absent where none is needed.
fn owner_of(bytes: &[u8], needed: bool) -> Result<Option<Sid>, DescError>
    requires { 20 ≤ length bytes.now }
    ensures value { result ≡ owner_of needed bytes.now }
    ensures wants { NeverMemory result }
{
    if needed {
        Ok(Some(sid_of_field(bytes, 4)?))
    } else {
        sid_if_any(bytes, 4)
    }
}

/// The list, which is absent where the control bits or its offset say so.
#[tactic(auto, unfolding(crate::specs::Reading::list_of, crate::specs::Reading::has_list))]
fn list_of(alloc: Global, bytes: &[u8]) -> Result<Option<Acl>, DescError>
    requires { 20 ≤ length bytes.now }
    ensures answer { ReadsAllIfRoom result (list_of bytes.now) }
    ensures wants { OnlyWithEntry result bytes.now }
{
    let offset = u32_at(bytes, 16) as usize;
    if !is_set(u16_at(bytes, 2), SE_DACL_PRESENT) || offset == 0 {
        return Ok(None);
    }
    if offset < 20 || bytes.len() < offset {
        return Err(DescError::Offset(16));
    }
    Ok(Some(acl_at(alloc, bytes, offset)?))
}

/// The list at a place.
#[tactic(auto, unfolding(crate::specs::Reading::acl_at, crate::specs::Reading::has_entry))]
fn acl_at(alloc: Global, bytes: &[u8], place: usize) -> Result<Acl, DescError>
    requires { place ≤ length bytes.now }
    ensures answer { ReadsAllIfRoom result (acl_at place bytes.now) }
    ensures wants { WantsOnlyIf (has_entry place bytes.now) result }
{
    if bytes.len() < place + 8 {
        return Err(DescError::Short(place));
    }
    let end = place + usize::from(u16_at(bytes, place + 2));
    if bytes.len() < end {
        return Err(DescError::Short(place));
    }
    if bytes[place] != ACL_REVISION {
        return Err(DescError::Revision(place));
    }
    aces_at(alloc, bytes, u16_at(bytes, place + 4), place + 8, end)
}

/// So many entries from a place on, one after the other, of a list that ends at another place.
fn aces_at(
    alloc: Global,
    bytes: &[u8],
    count: u16,
    first: usize,
    end: usize,
) -> Result<Acl, DescError>
    requires first { first ≤ length bytes.now }
    requires end { end ≤ length bytes.now }
    ensures answer { ReadsAllIfRoom result (aces_at count first end bytes.now) }
    ensures wants { WantsOnlyIf (nat_lt 0 count) result }
{
    let mut aces = Vec::new(alloc);
    let mut place = first;
    for _done in 0..count {
        let (ace, next) = ace_at(bytes, place, end)?;
        aces.push(ace)?;
        place = next;
    }
    Ok(Acl::from_vec(aces))
}

/// The entry at a place of a list that ends at another, and where the next begins.
#[tactic(auto, unfolding(crate::specs::Reading::ace_at, crate::specs::Reading::next_ace))]
fn ace_at(bytes: &[u8], place: usize, end: usize) -> Result<(Ace, usize), DescError>
    requires place { place ≤ length bytes.now }
    requires end { end ≤ length bytes.now }
    ensures ok { IfOk result (λ read. ace_at place end bytes.now ≡ Ok read.0) }
    ensures next { IfOk result (λ read. (read.1 ≡ next_ace place bytes.now) × (read.1 ≤ end)) }
    ensures err { IfErr result (λ refusal. ace_at place end bytes.now ≡ Err refusal) }
{
    if end < place + 8 {
        return Err(DescError::Short(place));
    }
    let size = usize::from(u16_at(bytes, place + 2));
    if end < place + size || size < 16 {
        return Err(DescError::Short(place));
    }
    let kind = kind_of(bytes[place], place)?;
    let sid = sid_at_front(&bytes[place + 8..place + size], place + 8)?;
    let ace = Ace {
        kind,
        flags: bytes[place + 1],
        mask: u32_at(bytes, place + 4),
        sid,
    };
    Ok((ace, place + size))
}

/// The kind of entries that a type byte tells.
fn kind_of(type_byte: u8, place: usize) -> Result<AceKind, DescError>
    ensures { result ≡ kind_of place type_byte }
{
    match type_byte {
        ACCESS_ALLOWED_ACE_TYPE => Ok(AceKind::Allow),
        ACCESS_DENIED_ACE_TYPE => Ok(AceKind::Deny),
        _ => Err(DescError::AceType(place)),
    }
}

/// The number of 16 bits at a place.
#[tactic(auto, unfolding(crate::specs::Reading::u16_at))]
fn u16_at(bytes: &[u8], place: usize) -> u16
    requires { place + 2 ≤ length bytes.now }
    ensures { result ≡ u16_at place bytes.now }
{
    front_u16(rest_of(bytes, place))
}

/// The number of 32 bits at a place.
#[tactic(auto, unfolding(crate::specs::Reading::u32_at))]
fn u32_at(bytes: &[u8], place: usize) -> u32
    requires { place + 4 ≤ length bytes.now }
    ensures { result ≡ u32_at place bytes.now }
{
    front_u32(rest_of(bytes, place))
}
