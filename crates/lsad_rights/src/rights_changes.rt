// The operations that add rights to an account of the policy and take them away, by its SID.
ghost use Rattle.std.specs.Prelude.{◌≡◌, IfOk};
ghost use Rattle.std.specs.List.{list_any};
ghost use Rattle.acct_rules.specs.Planned.{decision};
ghost use Rattle.lsad_rights.specs.RightsChanges.{brought_sid, brought_names, is_no_right, with_right, with_rights};
ghost use Rattle.lsad_rights.specs.RightsChanges.{without_right, without_rights, adjusts, account_or_new, added_rows};
ghost use Rattle.acct_rows.specs.Rows.{lsa_at};
ghost use Rattle.lsad_rights.specs.RightsChanges.{left_of, add_rights, remove_rights};
ghost use Rattle.lsad_rights.specs.Holdings.{with_missing, without_held};

use crate::account_objects::new_account;
use crate::found::{account_of_sid, guarded, object_of_sid};
use crate::held::{put_missing, remove_held};
use crate::holdings::{account_put, takes_all};
use crate::rights::AccountRight;
use acct_base::Seq;
use acct_calls::{Args, Name};
use acct_codes::account_rights::{ACCOUNT_ADJUST_PRIVILEGES, ACCOUNT_ADJUST_SYSTEM_ACCESS};
use acct_codes::status::{STATUS_NO_SUCH_PRIVILEGE, STATUS_OBJECT_NAME_NOT_FOUND};
use acct_rows::{LsaRow, Object, Row, Rows};
use acct_rules::{NoMemory, Planned, puts, refusal};
use dtyp_sid::Sid;
use std::alloc::Global;

/// The access that adjusts both kinds of rights.
const ADJUSTING: u32 = ACCOUNT_ADJUST_PRIVILEGES | ACCOUNT_ADJUST_SYSTEM_ACCESS;

fn brought_sid(args: &Args) -> Option<Sid>
    ensures { result ≡ brought_sid args.now }
{
    match args {
        Args::Rights { sid, .. } => Some(*sid),
        _ => None,
    }
}

fn brought_names(args: &Args) -> &[Name]
    ensures { result.now ≡ brought_names args.now }
{
    match args {
        Args::Rights { names, .. } => names.as_slice(),
        _ => &[],
    }
}

// Some of the names is none of a right.
fn has_unknown(alloc: Global, names: &[Name]) -> Result<bool, NoMemory>
    ensures { IfOk result (λ has. has ≡ list_any is_no_right names.now) }
{
    for name in names {
        if AccountRight::named(alloc, name)?.is_none() {
            return Ok(true);
        }
    }
    Ok(false)
}

fn add_privilege(account: LsaRow, low: u32) -> Result<LsaRow, NoMemory>
    ensures { IfOk result (λ l. l ≡ record account { privileges = with_missing low account.privileges }) }
{
    let mut held = account.privileges.into_vec();
    put_missing(&mut held, low)?;
    Ok(LsaRow {
        privileges: Seq::from_vec(held),
        ..account
    })
}

fn remove_privilege(account: LsaRow, low: u32) -> LsaRow
    ensures { result ≡ record account { privileges = without_held low account.privileges } }
{
    let mut held = account.privileges.into_vec();
    remove_held(&mut held, low);
    LsaRow {
        privileges: Seq::from_vec(held),
        ..account
    }
}

// The account with a right; a privilege that is held already keeps its attributes.
fn with_right(account: LsaRow, right: Option<AccountRight>) -> Result<LsaRow, NoMemory>
    ensures { IfOk result (λ l. l ≡ with_right right account) }
{
    match right {
        None => Ok(account),
        Some(AccountRight::Privilege(privilege)) => add_privilege(account, privilege.low()),
        Some(AccountRight::Logon(right)) => Ok(LsaRow {
            access: account.access | right.bit(),
            ..account
        }),
    }
}

fn with_rights(alloc: Global, account: LsaRow, names: &[Name]) -> Result<LsaRow, NoMemory>
    ensures { IfOk result (λ l. l ≡ with_rights names.now account) }
{
    let mut later = account;
    for name in names {
        later = with_right(later, AccountRight::named(alloc, name)?)?;
    }
    Ok(later)
}

// The account without a right.
fn without_right(account: LsaRow, right: Option<AccountRight>) -> LsaRow
    ensures { result ≡ without_right right account }
{
    match right {
        None => account,
        Some(AccountRight::Privilege(privilege)) => remove_privilege(account, privilege.low()),
        Some(AccountRight::Logon(right)) => LsaRow {
            access: account.access & !right.bit(),
            ..account
        },
    }
}

fn without_rights(alloc: Global, account: LsaRow, names: &[Name]) -> Result<LsaRow, NoMemory>
    ensures { IfOk result (λ l. l ≡ without_rights names.now account) }
{
    let mut later = account;
    for name in names {
        later = without_right(later, AccountRight::named(alloc, name)?);
    }
    Ok(later)
}

// The rows are put where the opening is granted that adjusts the account's rights.
fn adjusts(alloc: Global, sid: Option<Sid>, rows: Seq<Row>) -> Planned
    ensures { result ≡ adjusts sid rows }
{
    guarded(object_of_sid(sid), ADJUSTING, puts(alloc, rows))
}

// The account of a SID, or a new one.
fn account_or_new(alloc: Global, rows: &Rows, sid: &Sid) -> Result<LsaRow, NoMemory>
    ensures { IfOk result (λ l. l ≡ account_or_new sid.now (lsa_at rows.now.lists sid.now)) }
{
    match rows.lsa_account(sid) {
        Some(account) => account.copy(alloc),
        None => Ok(new_account(alloc, *sid)),
    }
}

fn added_rows(
    alloc: Global,
    rows: &Rows,
    sid: Option<Sid>,
    names: &[Name],
) -> Result<Seq<Row>, NoMemory>
    ensures { IfOk result (λ added. added ≡ added_rows rows.now.lists sid names.now) }
{
    match sid {
        None => Ok(Seq::new(alloc)),
        Some(sid) => {
            let account = account_or_new(alloc, rows, &sid)?;
            account_put(alloc, with_rights(alloc, account, names)?)
        }
    }
}

/// LsarAddAccountRights (MS-LSAD 3.1.4.5.11): adds rights to the account of a SID, which is made where there is none.
pub fn add_rights(
    alloc: Global,
    rows: &Rows,
    policy: Object,
    args: &Args,
) -> Result<Planned, NoMemory>
    ensures { IfOk result (λ p. p ≡ decision (add_rights rows.now.lists policy args.now)) }
{
    let names = brought_names(args);
    if has_unknown(alloc, names)? {
        return Ok(refusal(alloc, STATUS_NO_SUCH_PRIVILEGE));
    }
    let added = added_rows(alloc, rows, brought_sid(args), names)?;
    Ok(adjusts(alloc, brought_sid(args), added))
}

fn left_of(alloc: Global, account: &LsaRow, args: &Args) -> Result<LsaRow, NoMemory>
    ensures { IfOk result (λ l. l ≡ left_of args.now account.now) }
{
    if takes_all(args) {
        return Ok(new_account(alloc, account.sid));
    }
    without_rights(alloc, account.copy(alloc)?, brought_names(args))
}

/// LsarRemoveAccountRights (MS-LSAD 3.1.4.5.12): takes every right of the account of a SID away, or those that are
/// named. The account stays.
pub fn remove_rights(
    alloc: Global,
    rows: &Rows,
    policy: Object,
    args: &Args,
) -> Result<Planned, NoMemory>
    ensures { IfOk result (λ p. p ≡ decision (remove_rights rows.now.lists policy args.now)) }
{
    match account_of_sid(rows, brought_sid(args)) {
        None => Ok(refusal(alloc, STATUS_OBJECT_NAME_NOT_FOUND)),
        Some(account) => {
            if has_unknown(alloc, brought_names(args))? {
                return Ok(refusal(alloc, STATUS_NO_SUCH_PRIVILEGE));
            }
            let later = left_of(alloc, account, args)?;
            let left = account_put(alloc, later)?;
            Ok(adjusts(alloc, brought_sid(args), left))
        }
    }
}
