// Kinds of objects, and what the generic bits stand for at each.
ghost use Rattle.std.specs.Prelude.{◌≡◌};
ghost use Rattle.acct_codes.specs.Rights.{generic_mapping, valid_rights};

use crate::account_rights::{ACCOUNT_ALL_ACCESS, ACCOUNT_EXECUTE, ACCOUNT_READ, ACCOUNT_WRITE};
use crate::alias_rights::{ALIAS_ALL_ACCESS, ALIAS_EXECUTE, ALIAS_READ, ALIAS_WRITE};
use crate::domain_rights::{DOMAIN_ALL_ACCESS, DOMAIN_EXECUTE, DOMAIN_READ, DOMAIN_WRITE};
use crate::group_rights::{GROUP_ALL_ACCESS, GROUP_EXECUTE, GROUP_READ, GROUP_WRITE};
use crate::policy_rights::{POLICY_ALL_ACCESS, POLICY_EXECUTE, POLICY_READ, POLICY_WRITE};
use crate::server_rights::{
    SAM_SERVER_ALL_ACCESS, SAM_SERVER_EXECUTE, SAM_SERVER_READ, SAM_SERVER_WRITE,
};
use crate::user_rights::{USER_ALL_ACCESS, USER_EXECUTE, USER_READ, USER_WRITE};

/// The kinds of objects that are opened.
#[derive(Clone, Copy, Debug, PartialEq, Eq)]
pub enum Kind {
    /// The server of the account database (MS-SAMR).
    Server,
    /// A domain of accounts.
    Domain,
    /// A group of a domain.
    Group,
    /// An alias of a domain.
    Alias,
    /// A user of a domain.
    User,
    /// The policy (MS-LSAD).
    Policy,
    /// An account of the policy, which holds privileges and rights.
    Account,
}

/// What the generic bits of an access mask stand for at a kind of objects.
#[derive(Clone, Copy, Debug, PartialEq, Eq)]
pub struct Mapping {
    /// What GENERIC_READ stands for.
    pub read: u32,
    /// What GENERIC_WRITE stands for.
    pub write: u32,
    /// What GENERIC_EXECUTE stands for.
    pub execute: u32,
    /// What GENERIC_ALL stands for: every right to the object.
    pub all: u32,
}

/// What the generic bits stand for at a kind (MS-SAMR 2.2.1.3 to 2.2.1.7, MS-LSAD 2.2.1.1.2 and 2.2.1.1.3).
pub fn mapping_of(kind: Kind) -> Mapping
    ensures { result ≡ generic_mapping kind }
{
    let (all, read, write, execute) = match kind {
        Kind::Server => (
            SAM_SERVER_ALL_ACCESS,
            SAM_SERVER_READ,
            SAM_SERVER_WRITE,
            SAM_SERVER_EXECUTE,
        ),
        Kind::Domain => (DOMAIN_ALL_ACCESS, DOMAIN_READ, DOMAIN_WRITE, DOMAIN_EXECUTE),
        Kind::Group => (GROUP_ALL_ACCESS, GROUP_READ, GROUP_WRITE, GROUP_EXECUTE),
        Kind::Alias => (ALIAS_ALL_ACCESS, ALIAS_READ, ALIAS_WRITE, ALIAS_EXECUTE),
        Kind::User => (USER_ALL_ACCESS, USER_READ, USER_WRITE, USER_EXECUTE),
        Kind::Policy => (POLICY_ALL_ACCESS, POLICY_READ, POLICY_WRITE, POLICY_EXECUTE),
        Kind::Account => (
            ACCOUNT_ALL_ACCESS,
            ACCOUNT_READ,
            ACCOUNT_WRITE,
            ACCOUNT_EXECUTE,
        ),
    };
    Mapping {
        read,
        write,
        execute,
        all,
    }
}

/// Every right to an object of a kind, as a mask.
pub fn valid_bits(kind: Kind) -> u32
    ensures { result ≡ valid_rights kind }
{
    mapping_of(kind).all
}
