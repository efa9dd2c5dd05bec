// The parts of a descriptor, of which each may be absent.
ghost use Rattle.std.specs.Prelude.{◌≡◌, IfOk};
ghost use Rattle.dtyp_access.specs.Parts.{HasFewAces, HasOwnerIfNamed, named_parts, replaced};

use crate::{Acl, Descriptor};
use acct_codes::security_information::{
    DACL_SECURITY_INFORMATION, GROUP_SECURITY_INFORMATION, OWNER_SECURITY_INFORMATION,
};
use dtyp_sid::Sid;
use std::alloc::{AllocError, Global};

/// The parts of a descriptor that were asked for, or that shall replace those of another.
#[derive(Debug, Drop)]
pub struct Parts {
    pub owner: Option<Sid>,
    pub group: Option<Sid>,
    pub acl: Option<Acl>,
}

/// The parts of a descriptor that the bits name (SECURITY_INFORMATION, MS-DTYP 2.4.7); the others are absent.
#[tactic(auto, unfolding(crate::specs::Granted::shares))]
pub fn named_parts(alloc: Global, d: &Descriptor, info: u32) -> Result<Parts, AllocError>
    ensures value { IfOk result (λ parts. parts ≡ named_parts info d.now) }
    ensures few_aces { IfOk result (λ parts. HasFewAces d.now.acl → HasFewAces parts.acl) }
{
    let owner = if info & OWNER_SECURITY_INFORMATION != 0 {
        Some(d.owner)
    } else {
        None
    };
    let group = match d.group {
        Some(group) if info & GROUP_SECURITY_INFORMATION != 0 => Some(group),
        _ => None,
    };
    let acl = match &d.acl {
        Some(acl) if info & DACL_SECURITY_INFORMATION != 0 => Some(acl.copy(alloc)?),
        _ => None,
    };
    Ok(Parts { owner, group, acl })
}

/// The descriptor with those parts replaced that the bits name (SECURITY_INFORMATION, MS-DTYP 2.4.7). Where they name
/// the owner, the parts must have one. It takes no memory.
#[tactic(auto, unfolding(crate::specs::Parts::replaced, crate::specs::Granted::shares))]
pub fn replaced(old: Descriptor, info: u32, parts: Parts) -> Descriptor
    requires { HasOwnerIfNamed info parts }
    ensures value { result ≡ replaced old info parts }
    ensures few_aces { HasFewAces old.acl → HasFewAces parts.acl → HasFewAces result.acl }
{
    let owner = match parts.owner {
        Some(owner) if info & OWNER_SECURITY_INFORMATION != 0 => owner,
        _ => old.owner,
    };
    let group = if info & GROUP_SECURITY_INFORMATION != 0 {
        parts.group
    } else {
        old.group
    };
    let acl = if info & DACL_SECURITY_INFORMATION != 0 {
        parts.acl
    } else {
        old.acl
    };
    Descriptor { owner, group, acl }
}
