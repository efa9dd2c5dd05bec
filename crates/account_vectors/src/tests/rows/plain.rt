// Look-ups by name, by primary group and by SID as plain programs of their definitions: each looks at every row.
ghost use Rattle.std.specs.Prelude.{◌≡◌, IfOk, find, map};
ghost use Rattle.std.specs.List.{filter, list_any};
ghost use Rattle.std.specs.Option.{option_copied};
ghost use Rattle.dtyp_sid.specs.Sids.{sid_eq};
ghost use Rattle.acct_tables.specs.Selected.{has_name, has_primary, has_one, each_once};

use acct_base::Seq;
use acct_calls::{Name, NoMemory, Rids};
use acct_codes::Kind;
use acct_rows::{AccountRow, AliasRow};
use dtyp_sid::Sid;
use std::alloc::Global;

fn has_name(account: &AccountRow, domain: u8, name: &Name) -> bool
    ensures { result ≡ has_name domain name.now account.now }
{
    account.domain == domain && account.name.same(name)
}

/// The account of a domain with that name, the first of them.
pub fn find_name<'a>(accounts: &'a [AccountRow], domain: u8, name: &Name) -> Option<&'a AccountRow>
    ensures { option_copied result ≡ find (has_name domain name.now) accounts.now }
{
    for account in accounts {
        if has_name(account, domain, name) {
            return Some(account);
        }
    }
    None
}

fn has_primary(account: &AccountRow, group: u32) -> bool
    ensures { result ≡ has_primary group account.now }
{
    account.kind == Kind::User && account.primary == group
}

/// Whether the group is some user's primary group.
pub fn is_primary(accounts: &[AccountRow], group: u32) -> bool
    ensures { result ≡ list_any (has_primary group) accounts.now }
{
    accounts.iter().any(|account| has_primary(account, group))
}

fn is_among(sids: &[Sid], sid: &Sid) -> bool
    ensures { result ≡ list_any (sid_eq sid.now) sids.now }
{
    for other in sids {
        if sid == other {
            return true;
        }
    }
    false
}

fn has_one(row: &AliasRow, domain: u8, sids: &[Sid]) -> bool
    ensures { result ≡ has_one domain sids.now row.now }
{
    row.domain == domain && is_among(sids, &row.member)
}

/// The aliases of a domain that have one of the SIDs as a member. The rows stand by ascending alias, so the last one
/// given tells whether the alias was given before.
pub fn aliases_of(
    alloc: Global,
    rows: &[AliasRow],
    domain: u8,
    sids: &[Sid],
) -> Result<Rids, NoMemory>
    ensures { IfOk result (λ rids.
        rids ≡ each_once (map (λ row. row.alias) (filter (has_one domain sids.now) rows.now))) }
{
    let mut rids = Seq::new(alloc);
    let mut last = None;
    for row in rows {
        if has_one(row, domain, sids) && last != Some(row.alias) {
            rids.push(row.alias)?;
            last = Some(row.alias);
        }
    }
    Ok(rids)
}
