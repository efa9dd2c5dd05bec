// What the rows are.
use crate::object::Object;
use acct_base::Seq;
use acct_calls::Name;
use acct_codes::Kind;
use dtyp_access::Descriptor;
use dtyp_sid::Sid;

/// The number of the account domain, which has every group and every user.
pub const ACCOUNT_DOMAIN: u8 = 0;

/// The number of BUILTIN, which has aliases alone.
pub const BUILTIN_DOMAIN: u8 = 1;

/// A domain by its number. A created account takes the next relative identifier (RID).
#[derive(Debug, Drop, PartialEq, Eq)]
pub struct DomainRow {
    pub number: u8,
    pub sid: Sid,
    pub name: Name,
    pub oem: Name,
    pub next_rid: u32,
}

/// A user, a group or an alias of a domain (MS-SAMR 3.1.1). The bits are a user's control or a group's attributes,
/// the primary group is a user's; both are 0 for the others.
#[derive(Debug, Drop, PartialEq, Eq)]
pub struct AccountRow {
    pub domain: u8,
    pub rid: u32,
    pub kind: Kind,
    pub name: Name,
    pub full_name: Name,
    pub comment: Name,
    pub bits: u32,
    pub primary: u32,
}

/// A user that is a member of a group of the account domain, with its attributes there.
#[derive(Clone, Copy, Debug, PartialEq, Eq)]
pub struct MemberRow {
    pub group: u32,
    pub user: u32,
    pub attributes: u32,
}

/// A SID that is a member of an alias of a domain.
#[derive(Clone, Copy, Debug, PartialEq, Eq)]
pub struct AliasRow {
    pub domain: u8,
    pub alias: u32,
    pub member: Sid,
}

/// A privilege that an account of the policy holds, by the low part of its LUID; the high part is 0.
#[derive(Clone, Copy, Debug, PartialEq, Eq)]
pub struct Held {
    pub low: u32,
    pub attributes: u32,
}

/// A list of privileges.
pub type Privileges = Seq<Held>;

/// An account of the policy (MS-LSAD 3.1.1.3): its system access and its privileges.
#[derive(Debug, Drop)]
pub struct LsaRow {
    pub sid: Sid,
    pub access: u32,
    pub privileges: Privileges,
}

/// The security descriptor of an object that was set (MS-DTYP 2.4.6).
#[derive(Debug, Drop)]
pub struct DescRow {
    pub object: Object,
    pub descriptor: Descriptor,
}

/// The action of a change by which an account was made.
pub const OUT_MADE: u8 = 1;

/// The action of a change by which an account was changed.
pub const OUT_CHANGED: u8 = 2;

/// The action of a change by which an account was removed.
pub const OUT_REMOVED: u8 = 3;

/// The number at which no change of an account takes one any more.
pub const MOST_NEXT_OUT: u64 = 1 << 63;

/// A change of an account of a domain that is to be told to a program, with the account's name after it, or its last
/// one. Changes are numbered from 1 on.
#[derive(Debug, Drop, PartialEq, Eq)]
pub struct OutRow {
    pub number: u64,
    pub action: u8,
    pub domain: u8,
    pub rid: u32,
    pub kind: Kind,
    pub name: Name,
}

/// A row of one of the lists.
#[derive(Debug, Drop)]
pub enum Row {
    Domain(DomainRow),
    Account(AccountRow),
    Member(MemberRow),
    Alias(AliasRow),
    Lsa(LsaRow),
    Desc(DescRow),
    Out(OutRow),
}

/// The key of a row in its list. The fields stand in the order in which keys are compared.
#[derive(Clone, Copy, Debug, PartialEq, Eq)]
pub enum RowKey {
    Domain(u8),
    Account { domain: u8, rid: u32 },
    Member { group: u32, user: u32 },
    Alias { domain: u8, alias: u32, member: Sid },
    Lsa(Sid),
    Desc(Object),
    Out(u64),
}
