// The rules that a stored row breaks by itself.
ghost use Rattle.std.specs.Prelude.{◌≡◌, IfOk};
ghost use Rattle.std.specs.List.{list_all};
ghost use Rattle.acct_tables.specs.Good.{control_is_good, is_user_type, good_primary};
ghost use Rattle.acct_tables.specs.RowRules.{is_known_low, has_bad_text, has_bad_control, has_needless_number};
ghost use Rattle.acct_tables.specs.RowRules.{has_unknown_right, has_bad_next, is_misplaced, is_bad_account_domain};
ghost use Rattle.acct_tables.specs.RowRules.{is_bad_builtin, is_bad_change, breaks_alone};

use crate::row::{ACCOUNT_DOMAIN, BUILTIN_DOMAIN, DomainRow, Held, OUT_REMOVED, Row};
use acct_calls::domain::{BUILTIN_NAME, builtin_sid, is_domain_name, is_domain_sid};
use acct_calls::{Name, NoMemory};
use acct_codes::Kind;
use acct_codes::limit::MOST_TEXT;
use acct_codes::privilege::{SE_CREATE_GLOBAL, SE_CREATE_TOKEN};
use acct_codes::rid::{DOMAIN_GROUP_RID_USERS, FIRST_CREATED_RID, MOST_RID};
use acct_codes::system_access::KNOWN_SYSTEM_ACCESS;
use acct_codes::user_control::{
    USER_ACCOUNT_DISABLED, USER_NORMAL_ACCOUNT, USER_PASSWORD_NOT_REQUIRED,
    USER_SERVER_TRUST_ACCOUNT, USER_WORKSTATION_TRUST_ACCOUNT,
};
use std::alloc::Global;

fn has_bad_text(row: &Row) -> bool
    ensures { result ≡ has_bad_text row.now }
{
    match row {
        Row::Domain(domain) => domain.oem.units().len() > MOST_TEXT,
        Row::Account(account) => {
            !account.name.is_valid(account.kind)
                || account.full_name.units().len() > MOST_TEXT
                || account.comment.units().len() > MOST_TEXT
        }
        Row::Out(change) => !change.name.is_valid(change.kind),
        _ => false,
    }
}

const USER_TYPES: u32 = USER_NORMAL_ACCOUNT
    | USER_WORKSTATION_TRUST_ACCOUNT
    | USER_SERVER_TRUST_ACCOUNT;

const KNOWN_CONTROL: u32 = USER_ACCOUNT_DISABLED | USER_PASSWORD_NOT_REQUIRED | USER_TYPES;

fn control_is_good(bits: u32) -> bool
    ensures { result ≡ control_is_good bits }
{
    bits & KNOWN_CONTROL == bits
        && matches!(
            bits & USER_TYPES,
            USER_NORMAL_ACCOUNT | USER_WORKSTATION_TRUST_ACCOUNT | USER_SERVER_TRUST_ACCOUNT
        )
}

fn has_bad_control(row: &Row) -> bool
    ensures { result ≡ has_bad_control row.now }
{
    match row {
        Row::Account(account) => account.kind == Kind::User && !control_is_good(account.bits),
        _ => false,
    }
}

fn has_needless_number(row: &Row) -> bool
    ensures { result ≡ has_needless_number row.now }
{
    match row {
        Row::Account(account) => {
            account.kind == Kind::Alias && account.bits != 0
                || account.kind != Kind::User && account.primary != 0
        }
        _ => false,
    }
}

fn are_known(privileges: &[Held]) -> bool
    ensures { result ≡ list_all is_known_low privileges.now }
{
    privileges.iter().all(|held| SE_CREATE_TOKEN <= held.low && held.low <= SE_CREATE_GLOBAL)
}

fn has_unknown_right(row: &Row) -> bool
    ensures { result ≡ has_unknown_right row.now }
{
    match row {
        Row::Lsa(account) => {
            account.access & KNOWN_SYSTEM_ACCESS != account.access
                || !are_known(account.privileges.as_slice())
        }
        _ => false,
    }
}

fn has_bad_next(row: &Row) -> bool
    ensures { result ≡ has_bad_next row.now }
{
    match row {
        Row::Domain(domain) => domain.next_rid < FIRST_CREATED_RID || domain.next_rid > MOST_RID,
        _ => false,
    }
}

fn is_misplaced(row: &Row) -> bool
    ensures { result ≡ is_misplaced row.now }
{
    match row {
        Row::Account(account) => {
            account.domain == BUILTIN_DOMAIN && account.kind != Kind::Alias
                || account.domain == ACCOUNT_DOMAIN
                    && account.rid == DOMAIN_GROUP_RID_USERS
                    && account.kind != Kind::Group
        }
        Row::Out(change) => change.domain == BUILTIN_DOMAIN && change.kind != Kind::Alias,
        _ => false,
    }
}

fn is_bad_change(row: &Row) -> bool
    ensures { result ≡ is_bad_change row.now }
{
    match row {
        Row::Out(change) => {
            change.action == 0 || change.action > OUT_REMOVED || change.rid >= MOST_RID
        }
        _ => false,
    }
}

fn is_bad_account_domain(alloc: Global, row: &Row) -> Result<bool, NoMemory>
    ensures { IfOk result (λ broken. broken ≡ is_bad_account_domain row.now) }
{
    match row {
        Row::Domain(domain) => Ok(
            domain.number == ACCOUNT_DOMAIN
                && !(is_domain_name(alloc, &domain.name)? && is_domain_sid(&domain.sid)),
        ),
        _ => Ok(false),
    }
}

fn is_bad_builtin(alloc: Global, row: &Row) -> Result<bool, NoMemory>
    ensures { IfOk result (λ broken. broken ≡ is_bad_builtin row.now) }
{
    let name = Name::from_text(alloc, BUILTIN_NAME)?;
    match row {
        Row::Domain(domain) => Ok(
            domain.number == BUILTIN_DOMAIN
                && !(domain.name == name && domain.sid == builtin_sid()),
        ),
        _ => Ok(false),
    }
}

/// Whether a stored row breaks a rule by itself.
pub fn breaks_alone(alloc: Global, row: &Row) -> Result<bool, NoMemory>
    ensures { IfOk result (λ broken. broken ≡ breaks_alone row.now) }
{
    Ok(
        has_bad_text(row)
            || has_bad_control(row)
            || has_needless_number(row)
            || has_unknown_right(row)
            || has_bad_next(row)
            || is_bad_change(row)
            || is_misplaced(row)
            || is_bad_account_domain(alloc, row)?
            || is_bad_builtin(alloc, row)?,
    )
}
