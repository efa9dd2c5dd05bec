// The lists that calls and replies bring, and what stands in them.
use crate::Name;
use acct_base::Seq;
use dtyp_sid::Sid;

/// A list of SIDs.
pub type Sids = Seq<Sid>;

/// A list of relative identifiers, or of other numbers for each of some names.
pub type Rids = Seq<u32>;

/// A privilege that an account holds, by the two parts of its LUID (LSAPR_LUID_AND_ATTRIBUTES, MS-LSAD 2.2.5.4).
#[derive(Clone, Copy, Debug, PartialEq, Eq)]
pub struct Privilege {
    pub low: u32,
    pub high: u32,
    pub attributes: u32,
}

/// A list of privileges.
pub type PrivilegeSet = Seq<Privilege>;

/// An account of a domain, by its relative identifier and its name (SAMPR_RID_ENUMERATION, MS-SAMR 2.2.3.9).
#[derive(Debug, Drop, PartialEq, Eq)]
pub struct RidName {
    pub rid: u32,
    pub name: Name,
}

/// A list of accounts.
pub type RidNames = Seq<RidName>;

/// A domain that a translation refers to, by its name and its SID (LSAPR_TRUST_INFORMATION, MS-LSAD 2.2.7.1).
#[derive(Debug, Drop, PartialEq, Eq)]
pub struct ReferencedDomain {
    pub name: Name,
    pub sid: Sid,
}

/// A list of domains, to which entries of a translation refer by their index.
pub type Places = Seq<ReferencedDomain>;

/// A member or a group, by its relative identifier, and its attributes (GROUP_MEMBERSHIP, MS-SAMR 2.2.3.12).
#[derive(Clone, Copy, Debug, PartialEq, Eq)]
pub struct RidBits {
    pub rid: u32,
    pub bits: u32,
}

/// A list of members or groups.
pub type RidBitsList = Seq<RidBits>;

/// A translated name: what it is used for, its relative identifier, and the place of its domain in the list that it
/// comes with, or -1 (LSA_TRANSLATED_SID, MS-LSAT 2.2.14).
#[derive(Clone, Copy, Debug, PartialEq, Eq)]
pub struct TranslatedSid {
    pub usage: u16,
    pub rid: u32,
    pub index: i32,
}

/// A list of translated names.
pub type Translated = Seq<TranslatedSid>;

/// A translated SID: what it is used for, its name, and the place of its domain in the list that it comes with, or -1
/// (LSAPR_TRANSLATED_NAME, MS-LSAT 2.2.19).
#[derive(Debug, Drop, PartialEq, Eq)]
pub struct TranslatedName {
    pub usage: u16,
    pub name: Name,
    pub index: i32,
}

/// A list of translated SIDs.
pub type NamedList = Seq<TranslatedName>;

/// A translated name with its SID: what it is used for, its SID, or none where it isn't mapped, and the place of its
/// domain in the list that it comes with, or -1 (LSAPR_TRANSLATED_SID_EX2, MS-LSAT 2.2.25).
#[derive(Debug, Drop, PartialEq, Eq)]
pub struct SidRef {
    pub usage: u16,
    pub sid: Option<Sid>,
    pub index: i32,
}

/// A list of translated names with their SIDs.
pub type SidRefs = Seq<SidRef>;

/// An account as it is displayed: its place among those of its kind, its relative identifier, its control bits or its
/// attributes, its name, its comment, and its full name, which is empty for a group (SAMPR_DOMAIN_DISPLAY_USER,
/// MS-SAMR 2.2.8.2; SAMPR_DOMAIN_DISPLAY_GROUP, MS-SAMR 2.2.8.4).
#[derive(Debug, Drop, PartialEq, Eq)]
pub struct DisplayRow {
    pub index: u32,
    pub rid: u32,
    pub bits: u32,
    pub name: Name,
    pub comment: Name,
    pub full_name: Name,
}

/// A list of accounts as they are displayed.
pub type DisplayRows = Seq<DisplayRow>;
