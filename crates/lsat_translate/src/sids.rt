// What a SID is translated to.
ghost use Rattle.std.specs.Prelude.{◌≡◌, find};
ghost use Rattle.std.specs.Option.{option_or};
ghost use Rattle.lsat_translate.specs.Known.{domain_sid};
ghost use Rattle.lsat_translate.specs.Lookups.{is_well_known_sid, has_domain_sid, account_of_sid, match_of_sid};

use crate::known::{Known, WellKnown, named, well_known};
use crate::matches::{Match, account_match};
use acct_rows::{ACCOUNT_DOMAIN, BUILTIN_DOMAIN, Rows};
use dtyp_sid::Sid;

fn find_well_known(among: &[WellKnown], sid: Sid) -> Option<WellKnown>
    ensures { result ≡ find (is_well_known_sid sid) among.now }
{
    for known in among {
        if known.sid() == sid {
            return Some(*known);
        }
    }
    None
}

fn find_domain(rows: &Rows, among: &[Known], sid: Sid) -> Option<Known>
    ensures { result ≡ find (has_domain_sid rows.now.lists sid) among.now }
{
    for domain in among {
        if domain.sid(rows) == sid {
            return Some(*domain);
        }
    }
    None
}

// The account of a domain of the rows, by the domain's number and SID.
fn account_of_sid(rows: &Rows, number: u8, domain: Sid, sid: Sid) -> Option<Match>
    ensures { result ≡ account_of_sid rows.now.lists number domain sid }
{
    match sid.split_rid() {
        Some((front, rid)) if front == domain => account_match(rows.find_rid(number, rid)),
        _ => None,
    }
}

fn account_of_some(rows: &Rows, sid: Sid) -> Option<Match>
    ensures { result ≡ option_or
        (account_of_sid rows.now.lists ACCOUNT_DOMAIN (domain_sid rows.now.lists Known.Account) sid)
        (account_of_sid rows.now.lists BUILTIN_DOMAIN (domain_sid rows.now.lists Known.Builtin) sid) }
{
    match account_of_sid(rows, ACCOUNT_DOMAIN, Known::Account.sid(rows), sid) {
        Some(found) => Some(found),
        None => account_of_sid(rows, BUILTIN_DOMAIN, Known::Builtin.sid(rows), sid),
    }
}

/// What a SID is translated to: a well-known name, a domain, or an account of one of the two domains of the rows.
pub(crate) fn match_of_sid(rows: &Rows, sid: Sid) -> Option<Match>
    ensures { result ≡ match_of_sid rows.now.lists sid }
{
    if let Some(known) = find_well_known(well_known(), sid) {
        return Some(Match::WellKnown(known));
    }
    if let Some(domain) = find_domain(rows, named(), sid) {
        return Some(Match::Domain(domain));
    }
    account_of_some(rows, sid)
}
