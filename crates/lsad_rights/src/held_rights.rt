// The operation that lists the rights of an account of the policy, by their names.
ghost use Rattle.std.specs.Prelude.{◌≡◌, ◌++◌, true, IfOk, OnErr, OnOk};
ghost use Rattle.std.specs.Option.{option_copied};
ghost use Rattle.acct_rules.specs.Planned.{decision, none_fails};
ghost use Rattle.lsad_rights.specs.Listings.{held_name, privilege_names, logon_names, names_held, account_rights};

use crate::found::{account_of_sid, guarded, object_of_sid};
use crate::logon_rights::LogonRight;
use crate::privileges::KnownPrivilege;
use acct_calls::{Args, Name, Names, Outs};
use acct_codes::account_rights::ACCOUNT_VIEW;
use acct_codes::status::{STATUS_OBJECT_NAME_NOT_FOUND, STATUS_SUCCESS};
use acct_rows::{Held, LsaRow, Object, Rows};
use acct_rules::{NoMemory, Planned, answers, asked_sid, refusal};
use std::alloc::Global;

// The name of a privilege that is held.
fn held_name(alloc: Global, held: &Held) -> Result<Name, NoMemory>
    ensures { IfOk result (λ name. name ≡ held_name held.now) }
{
    match KnownPrivilege::of_low(held.low) {
        Some(privilege) => privilege.name(alloc),
        None => Ok(Name::from_units(Vec::new(alloc))),
    }
}

fn push_privileges(alloc: Global, names: &mut Names, account: &LsaRow) -> Result<(), NoMemory>
    ensures { OnOk result (names.new ≡ names.old ++ privilege_names account.now) }
{
    for held in account.privileges.as_slice() {
        names.push(held_name(alloc, held)?)?;
    }
    Ok(())
}

fn push_logon_rights(alloc: Global, names: &mut Names, account: &LsaRow) -> Result<(), NoMemory>
    ensures { OnOk result (names.new ≡ names.old ++ logon_names account.now) }
{
    for right in LogonRight::all() {
        if right.is_in(account.access) {
            names.push(right.name(alloc)?)?;
        }
    }
    Ok(())
}

// The names of what an account holds: privileges by ascending LUID, and then rights to log on by ascending bit.
fn names_held(alloc: Global, account: Option<&LsaRow>) -> Result<Names, NoMemory>
    ensures { IfOk result (λ names. names ≡ names_held (option_copied account.entry)) }
{
    let mut names = Names::new(alloc);
    if let Some(account) = account {
        push_privileges(alloc, &mut names, account)?;
        push_logon_rights(alloc, &mut names, account)?;
    }
    Ok(names)
}

/// LsarEnumerateAccountRights (MS-LSAD 3.1.4.5.10): the names of the rights of an account, to a client to whom the
/// account may be opened for a view.
pub fn account_rights(
    alloc: Global,
    rows: &Rows,
    policy: Object,
    args: &Args,
) -> Result<Planned, NoMemory>
    ensures decided { IfOk result (λ p. p ≡ decision (account_rights rows.now.lists policy args.now)) }
    ensures frugal { OnErr result (none_fails (account_rights rows.now.lists policy args.now).conditions ≡ true) }
{
    let account = account_of_sid(rows, asked_sid(args));
    if account.is_none() {
        return Ok(refusal(alloc, STATUS_OBJECT_NAME_NOT_FOUND));
    }
    let names = names_held(alloc, account)?;
    let shown = answers(alloc, STATUS_SUCCESS, Outs::NameList(names));
    Ok(guarded(object_of_sid(asked_sid(args)), ACCOUNT_VIEW, shown))
}
