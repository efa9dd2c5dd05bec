// The domains that a translation may refer to, and the well-known names.
ghost use Rattle.std.specs.Prelude.{◌≡◌, ◌<◌, ◌^◌, ◌∷◌, [], IfOk};
ghost use Rattle.lsat_translate.specs.Known.{well_known_text, well_known_name, well_known_rid, home_of, authority_of};
ghost use Rattle.lsat_translate.specs.Known.{well_known_sid, domain_name, domain_sid, all_well_known, named_domains};

use acct_calls::domain::{BUILTIN_NAME, builtin_sid};
use acct_calls::{Name, NoMemory};
use acct_codes::rid::{
    SECURITY_ANONYMOUS_LOGON_RID, SECURITY_AUTHENTICATED_USER_RID, SECURITY_LOCAL_SYSTEM_RID,
    SECURITY_NT_AUTHORITY, SECURITY_WORLD_AUTHORITY, SECURITY_WORLD_RID,
};
use acct_rows::{ACCOUNT_DOMAIN, Rows};
use dtyp_sid::Sid;
use std::alloc::Global;

/// The domains that a translation may refer to.
#[derive(Clone, Copy, Debug, PartialEq, Eq, Hash)]
pub enum Known {
    /// The account domain.
    Account,
    /// BUILTIN, S-1-5-32.
    Builtin,
    /// NT AUTHORITY, S-1-5.
    NtAuthority,
    /// The domain of Everyone, S-1-1, with the empty name.
    World,
}

/// The well-known names (MS-DTYP 2.4.2.4).
#[derive(Clone, Copy, Debug, PartialEq, Eq)]
pub enum WellKnown {
    /// S-1-1-0.
    Everyone,
    /// S-1-5-7.
    AnonymousLogon,
    /// S-1-5-11.
    AuthenticatedUsers,
    /// S-1-5-18.
    System,
}

/// The well-known names in order.
const WELL_KNOWN: [WellKnown; 4] = [
    WellKnown::Everyone,
    WellKnown::AnonymousLogon,
    WellKnown::AuthenticatedUsers,
    WellKnown::System,
];

/// The domains that a name may name, in order.
const NAMED: [Known; 3] = [Known::Account, Known::Builtin, Known::NtAuthority];

const AUTHORITY_NAME: &str = "NT AUTHORITY";

const NULL_AUTHORITY: u64 = 0;

impl WellKnown {
    fn text(self) -> &'static str
        ensures { result.now ≡ well_known_text self }
    {
        match self {
            WellKnown::Everyone => "Everyone",
            WellKnown::AnonymousLogon => "ANONYMOUS LOGON",
            WellKnown::AuthenticatedUsers => "Authenticated Users",
            WellKnown::System => "SYSTEM",
        }
    }

    /// Its name.
    #[tactic(auto, unfolding(crate::specs::Known::well_known_name))]
    pub(crate) fn name(self, alloc: Global) -> Result<Name, NoMemory>
        ensures { IfOk result (λ name. name ≡ well_known_name self) }
    {
        Name::from_text(alloc, self.text())
    }

    /// Its RID, which stands after the SID of its domain.
    pub(crate) fn rid(self) -> u32
        ensures { result ≡ well_known_rid self }
    {
        match self {
            WellKnown::Everyone => SECURITY_WORLD_RID,
            WellKnown::AnonymousLogon => SECURITY_ANONYMOUS_LOGON_RID,
            WellKnown::AuthenticatedUsers => SECURITY_AUTHENTICATED_USER_RID,
            WellKnown::System => SECURITY_LOCAL_SYSTEM_RID,
        }
    }

    /// The domain that it refers to.
    pub(crate) fn home(self) -> Known
        ensures { result ≡ home_of self }
    {
        match self {
            WellKnown::Everyone => Known::World,
            WellKnown::AnonymousLogon | WellKnown::AuthenticatedUsers | WellKnown::System => {
                Known::NtAuthority
            }
        }
    }

    fn authority(self) -> u64
        ensures value { result ≡ authority_of self }
        ensures below { result < 2 ^ 48 }
    {
        match self {
            WellKnown::Everyone => SECURITY_WORLD_AUTHORITY,
            WellKnown::AnonymousLogon | WellKnown::AuthenticatedUsers | WellKnown::System => {
                SECURITY_NT_AUTHORITY
            }
        }
    }

    /// Its SID.
    pub(crate) fn sid(self) -> Sid
        ensures { result ≡ well_known_sid self }
    {
        one_sub(self.authority(), self.rid())
    }
}

// The SID of an authority, with one sub-authority.
fn one_sub(authority: u64, sub: u32) -> Sid
    requires { authority < 2 ^ 48 }
    ensures { result ≡ record { authority = authority; subs = sub ∷ [] } }
{
    match Sid::new(authority, &[sub]) {
        Ok(sid) => sid,
        Err(_) => unreachable!(),
    }
}

// The SID of an authority alone.
fn no_sub(authority: u64) -> Sid
    requires { authority < 2 ^ 48 }
    ensures { result ≡ record { authority = authority; subs = [] } }
{
    match Sid::new(authority, &[]) {
        Ok(sid) => sid,
        Err(_) => unreachable!(),
    }
}

fn account_domain_name(alloc: Global, rows: &Rows) -> Result<Name, NoMemory>
    ensures { IfOk result (λ name. name ≡ domain_name rows.now.lists Known.Account) }
{
    match rows.domain(ACCOUNT_DOMAIN) {
        Some(domain) => domain.name.copy(alloc),
        None => Ok(Name::from_units(Vec::new(alloc))),
    }
}

fn account_domain_sid(rows: &Rows) -> Sid
    ensures { result ≡ domain_sid rows.now.lists Known.Account }
{
    match rows.domain(ACCOUNT_DOMAIN) {
        Some(domain) => domain.sid,
        None => no_sub(NULL_AUTHORITY),
    }
}

impl Known {
    ghost use Rattle.lsat_translate.specs.Known.{same_known};

    /// Whether it is the other domain.
    pub(crate) fn same(self, other: Known) -> bool
        ensures { result ≡ same_known self other }
    {
        self == other
    }

    /// Its name.
    pub(crate) fn name(self, alloc: Global, rows: &Rows) -> Result<Name, NoMemory>
        ensures { IfOk result (λ name. name ≡ domain_name rows.now.lists self) }
    {
        match self {
            Known::Account => account_domain_name(alloc, rows),
            Known::Builtin => Name::from_text(alloc, BUILTIN_NAME),
            Known::NtAuthority => Name::from_text(alloc, AUTHORITY_NAME),
            Known::World => Ok(Name::from_units(Vec::new(alloc))),
        }
    }

    /// Its SID.
    pub(crate) fn sid(self, rows: &Rows) -> Sid
        ensures { result ≡ domain_sid rows.now.lists self }
    {
        match self {
            Known::Account => account_domain_sid(rows),
            Known::Builtin => builtin_sid(),
            Known::NtAuthority => no_sub(SECURITY_NT_AUTHORITY),
            Known::World => no_sub(SECURITY_WORLD_AUTHORITY),
        }
    }
}

/// The well-known names as a list.
pub(crate) fn well_known() -> &'static [WellKnown]
    ensures { result.now ≡ all_well_known }
{
    &WELL_KNOWN
}

/// The domains that a name may name, as a list.
pub(crate) fn named() -> &'static [Known]
    ensures { result.now ≡ named_domains }
{
    &NAMED
}
