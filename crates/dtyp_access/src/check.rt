// The access check.
ghost use Rattle.std.specs.Prelude.{◌≡◌, ℕ, ◌^◌, ◌<◌, if◌then◌else◌, not, ◌&&◌, ◌||◌, Some};
ghost use Rattle.dtyp_access.specs.Granted.{IsOneRight, shares, granted, grants, has_sid, is_owners, is_inherit_only};
ghost use Rattle.dtyp_access.specs.Granted.{allows, asks, opened};

use crate::{Ace, AceKind, Descriptor, Token};
use acct_codes::descriptor_part::INHERIT_ONLY_ACE;
use acct_codes::standard_rights::{
    ACCESS_SYSTEM_SECURITY, GENERIC_ALL, GENERIC_EXECUTE, GENERIC_READ, GENERIC_WRITE,
    MAXIMUM_ALLOWED, READ_CONTROL, WRITE_DAC,
};
use acct_codes::{Kind, mapping_of, valid_bits};
use dtyp_sid::Sid;

/// Whether a descriptor grants a right, which is an access mask of one bit, to a token. It takes no memory.
#[tactic(auto, unfolding(crate::specs::Granted::shares))]
pub fn is_granted(token: &Token, d: &Descriptor, bit: u32) -> bool
    requires { IsOneRight bit }
    ensures { result ≡ granted token.now d.now bit }
{
    granted_rights(token.sids(), d) & bit != 0
}

/// What an opening of an object of a kind grants a token that asks for the desired rights: none where a right that is
/// asked for is none of the kind or not granted; else those that are asked for, and with MAXIMUM_ALLOWED all others of
/// the kind that are granted. It takes no memory.
#[tactic(auto, unfolding(crate::specs::Granted::shares))]
pub fn opening(kind: Kind, d: &Descriptor, token: &Token, desired: u32) -> Option<u32>
    ensures { result ≡ opened kind d.now token.now desired }
{
    let asked = asked_rights(kind, desired);
    let granted = valid_bits(kind) & granted_rights(token.sids(), d);
    if asked & !granted != 0 {
        None
    } else if desired & MAXIMUM_ALLOWED != 0 {
        Some(asked | granted)
    } else {
        Some(asked)
    }
}

/// The rights that a desired access mask asks for, with each generic bit replaced by what it stands for.
fn asked_rights(kind: Kind, desired: u32) -> u32
    ensures { (bit : ℕ) → bit < 32 → shares result (2 ^ bit) ≡ asks kind desired (2 ^ bit) }
{
    let mapping = mapping_of(kind);
    desired & !NAMELESS
        | meant(desired, GENERIC_ALL, mapping.all)
        | meant(desired, GENERIC_READ, mapping.read)
        | meant(desired, GENERIC_WRITE, mapping.write)
        | meant(desired, GENERIC_EXECUTE, mapping.execute)
}

/// The rights that a generic bit stands for, where it is desired.
#[tactic(auto, unfolding(crate::specs::Granted::shares))]
fn meant(desired: u32, generic: u32, rights: u32) -> u32
    ensures { result ≡ (if shares desired generic then rights else 0) }
{
    if desired & generic != 0 { rights } else { 0 }
}

/// The bits that name no right of their own: the generic ones, and MAXIMUM_ALLOWED.
const NAMELESS: u32 = GENERIC_ALL
    | GENERIC_EXECUTE
    | GENERIC_WRITE
    | GENERIC_READ
    | MAXIMUM_ALLOWED;

/// All rights that a descriptor grants to the SIDs of a token.
fn granted_rights(token: &[Sid], d: &Descriptor) -> u32
    ensures { (bit : ℕ) → bit < 32 → shares result (2 ^ bit) ≡ granted token.now d.now (2 ^ bit) }
{
    let granted = match &d.acl {
        Some(acl) => listed_rights(token, &d.owner, acl.aces()),
        None => u32::MAX,
    };
    granted & !ACCESS_SYSTEM_SECURITY
}

/// The rights that a walk over a list has granted, and those that are undecided.
#[derive(Clone, Copy)]
struct Walk {
    granted: u32,
    undecided: u32,
}

/// The rights that a list grants to the SIDs of a token, and those of the owner. The list is walked once.
fn listed_rights(token: &[Sid], owner: &Sid, aces: &[Ace]) -> u32
    ensures { (bit : ℕ) → bit < 32 → shares result (2 ^ bit) ≡ grants token.now owner.now (2 ^ bit) (Some aces.now) }
{
    let granted = owners_rights(token, owner);
    let mut walk = Walk {
        granted,
        undecided: !NAMELESS & !granted,
    };
    for ace in aces {
        if speaks_of(ace, token) {
            walk = decided(walk, ace.kind, ace.mask);
        }
    }
    walk.granted
}

/// The rights that the owner has whatever a list says, where the token has the owner's SID.
fn owners_rights(token: &[Sid], owner: &Sid) -> u32
    ensures { (bit : ℕ) → bit < 32 → shares result (2 ^ bit) ≡ is_owners token.now owner.now (2 ^ bit) }
{
    if has_sid(token, owner) {
        READ_CONTROL | WRITE_DAC
    } else {
        0
    }
}

/// Whether an entry is for the object itself and for a SID of the token.
#[tactic(auto, unfolding(crate::specs::Granted::is_inherit_only, crate::specs::Granted::shares))]
fn speaks_of(ace: &Ace, token: &[Sid]) -> bool
    ensures { result ≡ (not (is_inherit_only ace.now) && has_sid token.now ace.now.sid) }
{
    ace.flags & INHERIT_ONLY_ACE == 0 && has_sid(token, &ace.sid)
}

/// The walk after one more entry, of a kind and with a mask: the undecided rights that it names are decided.
fn decided(walk: Walk, kind: AceKind, mask: u32) -> Walk
    ensures granted { (bit : ℕ) → bit < 32 → shares result.granted (2 ^ bit)
        ≡ (shares walk.granted (2 ^ bit) || (allows kind && shares mask (2 ^ bit) && shares walk.undecided (2 ^ bit))) }
    ensures undecided { (bit : ℕ) → bit < 32 → shares result.undecided (2 ^ bit)
        ≡ (shares walk.undecided (2 ^ bit) && not (shares mask (2 ^ bit))) }
{
    let undecided = walk.undecided & !mask;
    match kind {
        AceKind::Allow => Walk {
            granted: walk.granted | (mask & walk.undecided),
            undecided,
        },
        AceKind::Deny => Walk {
            granted: walk.granted,
            undecided,
        },
    }
}

/// Whether a token has a SID.
#[tactic(auto, unfolding(crate::specs::Granted::has_sid))]
fn has_sid(token: &[Sid], sid: &Sid) -> bool
    ensures { result ≡ has_sid token.now sid.now }
{
    token.iter().any(|other| other == sid)
}
