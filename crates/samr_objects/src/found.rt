// What is found in the rows.
ghost use Rattle.std.specs.Prelude.{◌≡◌, find};
ghost use Rattle.std.specs.Option.{option_copied};
ghost use Rattle.samr_objects.specs.Domains.{is_named, domain_named, has_sid, domain_of_sid, use_in, rid_in};

use acct_calls::Name;
use acct_codes::sid_use::SID_TYPE_UNKNOWN;
use acct_rows::{AccountRow, DomainRow, Rows};
use acct_rules::use_of_kind;
use dtyp_sid::Sid;

fn is_named(domain: &DomainRow, name: &Name) -> bool
    ensures { result ≡ is_named name.now domain.now }
{
    domain.name.same(name)
}

fn find_named<'a>(domains: &'a [DomainRow], name: &Name) -> Option<&'a DomainRow>
    ensures { option_copied result ≡ find (is_named name.now) domains.now }
{
    for domain in domains {
        if is_named(domain, name) {
            return Some(domain);
        }
    }
    None
}

/// The domain of that name.
pub fn domain_named<'a>(rows: &'a Rows, name: Option<&Name>) -> Option<&'a DomainRow>
    ensures { option_copied result ≡ domain_named rows.now.lists (option_copied name.entry) }
{
    match name {
        Some(name) => find_named(rows.domains(), name),
        None => None,
    }
}

fn has_sid(domain: &DomainRow, sid: Sid) -> bool
    ensures { result ≡ has_sid sid domain.now }
{
    domain.sid == sid
}

fn find_of_sid(domains: &[DomainRow], sid: Sid) -> Option<&DomainRow>
    ensures { option_copied result ≡ find (has_sid sid) domains.now }
{
    for domain in domains {
        if has_sid(domain, sid) {
            return Some(domain);
        }
    }
    None
}

/// The domain of that SID.
pub fn domain_of_sid(rows: &Rows, sid: Option<Sid>) -> Option<&DomainRow>
    ensures { option_copied result ≡ domain_of_sid rows.now.lists sid }
{
    match sid {
        Some(sid) => find_of_sid(rows.domains(), sid),
        None => None,
    }
}

/// What an account that was looked for is used for (SID_NAME_USE, MS-SAMR 2.2.2.3).
pub fn use_in(found: Option<&AccountRow>) -> u32
    ensures { result ≡ use_in (option_copied found.entry) }
{
    match found {
        Some(account) => use_of_kind(account.kind),
        None => SID_TYPE_UNKNOWN,
    }
}

/// The RID of an account that was looked for, or 0.
pub fn rid_in(found: Option<&AccountRow>) -> u32
    ensures { result ≡ rid_in (option_copied found.entry) }
{
    match found {
        Some(account) => account.rid,
        None => 0,
    }
}
