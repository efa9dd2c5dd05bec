// The operations that read and set the security descriptor of an object.
ghost use Rattle.std.specs.Prelude.{◌≡◌, true, Some, IfOk, OnErr};
ghost use Rattle.dtyp_access.specs.Parts.{IsDescriptor};
ghost use Rattle.dtyp_access.specs.Reading.{parts_of_bytes};
ghost use Rattle.acct_rules.specs.Planned.{decision, none_fails};
ghost use Rattle.acct_operations.specs.Openings.{names_parts, spelled_parts, are_spelled, have_owner, shown_parts};
ghost use Rattle.acct_operations.specs.Openings.{replaced_row, query_security, set_security};
ghost use Rattle.acct_operations.specs.Frugal.{ReachesEntry, MayWantToSet};

use acct_base::Seq;
use acct_calls::{Args, Bytes, Outs};
use acct_codes::security_information::{
    DACL_SECURITY_INFORMATION, GROUP_SECURITY_INFORMATION, OWNER_SECURITY_INFORMATION,
};
use acct_codes::status::{STATUS_INVALID_PARAMETER, STATUS_SUCCESS};
use acct_rows::{DescRow, Object, Row, Rows};
use acct_rules::{NoMemory, Planned, answers, named_info, puts, refusal, set_bytes};
use dtyp_access::{
    DescError, Descriptor, Parts, has_few_aces, named_parts, read_parts, replaced, write_parts,
};
use std::alloc::{AllocError, Global};

const ALL_PARTS: u32 = OWNER_SECURITY_INFORMATION
    + GROUP_SECURITY_INFORMATION
    + DACL_SECURITY_INFORMATION;

// The bits name one part at least, and nothing else.
fn names_parts(info: u32) -> bool
    ensures { result ≡ names_parts info }
{
    info != 0 && info & ALL_PARTS == info
}

// The bytes of the named parts of a descriptor.
fn shown_parts(alloc: Global, info: u32, described: &Descriptor) -> Result<Bytes, NoMemory>
    requires { IsDescriptor described.now }
    ensures { IfOk result (λ bytes. Some bytes ≡ shown_parts info (Some described.now)) }
{
    let parts = named_parts(alloc, described, info)?;
    Ok(Bytes::new(write_parts(alloc, &parts)?))
}

/// SamrQuerySecurityObject (MS-SAMR 3.1.5.12.2) and LsarQuerySecurityObject (MS-LSAD 3.1.4.9.1): the named parts of the
/// object's descriptor.
pub fn query_security(
    alloc: Global,
    rows: &Rows,
    described: &Descriptor,
    object: Object,
    args: &Args,
) -> Result<Planned, NoMemory>
    requires { IsDescriptor described.now }
    ensures decided { IfOk result (λ p.
        p ≡ decision (query_security rows.now.lists (Some described.now) object args.now)) }
    ensures frugal { OnErr result
        (none_fails (query_security rows.now.lists (Some described.now) object args.now).conditions ≡ true) }
{
    let info = named_info(args);
    if !names_parts(info) {
        return Ok(refusal(alloc, STATUS_INVALID_PARAMETER));
    }
    match shown_parts(alloc, info, described) {
        Ok(bytes) => Ok(answers(alloc, STATUS_SUCCESS, Outs::Security(Some(bytes)))),
        Err(none) => Err(none),
    }
}

// The parts that bytes spell, if they spell some.
fn spelled_parts(alloc: Global, bytes: &[u8]) -> Result<Option<Parts>, NoMemory>
    ensures spelled { IfOk result (λ parts. parts ≡ spelled_parts (parts_of_bytes bytes.now)) }
    ensures frugal { OnErr result (ReachesEntry bytes.now) }
{
    match read_parts(alloc, bytes) {
        Ok(parts) => Ok(Some(parts)),
        Err(DescError::Memory) => Err(AllocError),
        Err(_) => Ok(None),
    }
}

// There are parts, and their list has at most 800 entries.
fn are_spelled(parts: &Option<Parts>) -> bool
    ensures { result ≡ are_spelled parts.now }
{
    match parts {
        Some(parts) => has_few_aces(&parts.acl),
        None => false,
    }
}

// They have an owner, where the bits name it.
#[tactic(auto, unfolding(dtyp_access::specs::Granted::shares))]
fn have_owner(info: u32, parts: &Option<Parts>) -> bool
    ensures { result ≡ have_owner info parts.now }
{
    match parts {
        Some(parts) => info & OWNER_SECURITY_INFORMATION == 0 || parts.owner.is_some(),
        None => false,
    }
}

// The row of the object's descriptor with the named parts replaced.
fn replaced_row(
    alloc: Global,
    object: Object,
    info: u32,
    described: &Descriptor,
    parts: Option<Parts>,
) -> Result<Seq<Row>, NoMemory>
    requires { have_owner info parts ≡ true }
    ensures { IfOk result (λ rows. rows ≡ replaced_row object info (Some described.now) parts) }
{
    let Some(parts) = parts else {
        return Ok(Seq::new(alloc));
    };
    let old = described.copy(alloc)?;
    let descriptor = replaced(old, info, parts);
    Seq::new(alloc).with(Row::Desc(DescRow { object, descriptor }))
}

/// SamrSetSecurityObject (MS-SAMR 3.1.5.12.1) and LsarSetSecurityObject (MS-LSAD 3.1.4.9.2): the named parts of the
/// object's descriptor become those that the bytes spell. Handles that are open keep their grants.
pub fn set_security(
    alloc: Global,
    rows: &Rows,
    described: &Descriptor,
    object: Object,
    args: &Args,
) -> Result<Planned, NoMemory>
    ensures decided { IfOk result (λ p.
        p ≡ decision (set_security rows.now.lists (Some described.now) object args.now)) }
    ensures frugal { OnErr result (MayWantToSet rows.now.lists (Some described.now) object args.now) }
{
    let info = named_info(args);
    if !names_parts(info) {
        return Ok(refusal(alloc, STATUS_INVALID_PARAMETER));
    }
    let parts = spelled_parts(alloc, set_bytes(args))?;
    if !are_spelled(&parts) {
        return Ok(refusal(alloc, STATUS_INVALID_PARAMETER));
    }
    if !have_owner(info, &parts) {
        return Ok(refusal(alloc, STATUS_INVALID_PARAMETER));
    }
    let rows = replaced_row(alloc, object, info, described, parts)?;
    Ok(puts(alloc, rows))
}
