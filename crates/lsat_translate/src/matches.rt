// What a name or a SID is translated to.
ghost use Rattle.std.specs.Prelude.{◌≡◌, ◌<◌, ◌^◌, IfOk};
ghost use Rattle.std.specs.Option.{option_copied, option_map};
ghost use Rattle.acct_rows.specs.Rows.{account_at};
ghost use Rattle.lsat_translate.specs.Matches.{account_match, known_of_number, known_of, use_of, use_in};
ghost use Rattle.lsat_translate.specs.Matches.{rid_of, rid_in, sid_of, sid_in, account_name, name_of};

use crate::known::{Known, WellKnown};
use acct_calls::{Name, NoMemory};
use acct_codes::Kind;
use acct_codes::sid_use::{SID_TYPE_DOMAIN, SID_TYPE_UNKNOWN, SID_TYPE_WELL_KNOWN_GROUP};
use acct_rows::{ACCOUNT_DOMAIN, AccountRow, Rows};
use acct_rules::use_of_kind;
use dtyp_sid::Sid;
use std::alloc::Global;

/// What a name or a SID is translated to.
#[derive(Clone, Copy, Debug, PartialEq, Eq)]
pub enum Match {
    /// A well-known name.
    WellKnown(WellKnown),
    /// A domain itself.
    Domain(Known),
    /// An account, by the number of its domain in the rows, its RID and its kind.
    Account { number: u8, rid: u32, kind: Kind },
}

// The RID of a domain, which has none.
const NO_RID: u32 = 0xFFFF_FFFF;

/// The match of an account, if there is one.
pub(crate) fn account_match(found: Option<&AccountRow>) -> Option<Match>
    ensures { result ≡ option_map account_match (option_copied found.entry) }
{
    match found {
        Some(account) => Some(Match::Account {
            number: account.domain,
            rid: account.rid,
            kind: account.kind,
        }),
        None => None,
    }
}

fn known_of_number(number: u8) -> Known
    ensures { result ≡ known_of_number number }
{
    if number == ACCOUNT_DOMAIN {
        Known::Account
    } else {
        Known::Builtin
    }
}

fn account_name(alloc: Global, found: Option<&AccountRow>) -> Result<Name, NoMemory>
    ensures { IfOk result (λ name. name ≡ account_name (option_copied found.entry)) }
{
    match found {
        Some(account) => account.name.copy(alloc),
        None => Ok(Name::from_units(Vec::new(alloc))),
    }
}

impl Match {
    /// The domain that it refers to.
    pub(crate) fn known(self) -> Known
        ensures { result ≡ known_of self }
    {
        match self {
            Match::WellKnown(name) => name.home(),
            Match::Domain(domain) => domain,
            Match::Account { number, .. } => known_of_number(number),
        }
    }

    /// What it is used for (SID_NAME_USE, MS-SAMR 2.2.2.3).
    pub(crate) fn usage(self) -> u32
        ensures { result ≡ use_of self }
    {
        match self {
            Match::WellKnown(_) => SID_TYPE_WELL_KNOWN_GROUP,
            Match::Domain(_) => SID_TYPE_DOMAIN,
            Match::Account { kind, .. } => use_of_kind(kind),
        }
    }

    /// Its RID; that of a domain is 0xFFFFFFFF.
    pub(crate) fn rid(self) -> u32
        ensures { result ≡ rid_of self }
    {
        match self {
            Match::WellKnown(name) => name.rid(),
            Match::Domain(_) => NO_RID,
            Match::Account { rid, .. } => rid,
        }
    }

    /// Its SID: that of an account is its domain's followed by its RID, which each domain of sound rows has room for.
    pub(crate) fn sid(self, rows: &Rows) -> Option<Sid>
        ensures { result ≡ sid_of rows.now.lists self }
    {
        match self {
            Match::WellKnown(name) => Some(name.sid()),
            Match::Domain(domain) => Some(domain.sid(rows)),
            Match::Account { rid, .. } => self.known().sid(rows).with_rid(rid),
        }
    }

    /// Its name.
    pub(crate) fn name(self, alloc: Global, rows: &Rows) -> Result<Name, NoMemory>
        ensures { IfOk result (λ name. name ≡ name_of rows.now.lists self) }
    {
        match self {
            Match::WellKnown(name) => name.name(alloc),
            Match::Domain(domain) => domain.name(alloc, rows),
            Match::Account { number, rid, .. } => account_name(alloc, rows.find_rid(number, rid)),
        }
    }
}

/// What a match is used for; without one it is unknown.
pub(crate) fn use_in(found: Option<Match>) -> u32
    ensures { result ≡ use_in found }
{
    match found {
        Some(found) => found.usage(),
        None => SID_TYPE_UNKNOWN,
    }
}

/// The RID of a match, or 0.
pub(crate) fn rid_in(found: Option<Match>) -> u32
    ensures { result ≡ rid_in found }
{
    match found {
        Some(found) => found.rid(),
        None => 0,
    }
}

/// The SID of a match, or none.
pub(crate) fn sid_in(rows: &Rows, found: Option<Match>) -> Option<Sid>
    ensures { result ≡ sid_in rows.now.lists found }
{
    match found {
        Some(found) => found.sid(rows),
        None => None,
    }
}
