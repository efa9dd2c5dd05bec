// The operations that show what an account of the policy holds, by a handle to it.
ghost use Rattle.std.specs.Prelude.{◌≡◌, true, IfOk, OnErr, map};
ghost use Rattle.std.specs.Option.{option_copied};
ghost use Rattle.acct_rules.specs.Planned.{decision};
ghost use Rattle.lsad_rights.specs.Accounts.{privilege_shown, privileges_shown, access_shown, account_privileges};
ghost use Rattle.lsad_rights.specs.Accounts.{system_access};

use crate::found::account_of;
use acct_base::Seq;
use acct_calls::{Args, Outs, Privilege, PrivilegeSet};
use acct_codes::status::STATUS_SUCCESS;
use acct_rows::{Held, LsaRow, Object, Rows};
use acct_rules::{NoMemory, Planned, answers};
use std::alloc::Global;

fn held_shown(alloc: Global, held: &[Held]) -> Result<PrivilegeSet, NoMemory>
    ensures { IfOk result (λ shown. shown ≡ map privilege_shown held.now) }
{
    let mut shown = Seq::new(alloc);
    for privilege in held {
        shown.push(Privilege {
            low: privilege.low,
            high: 0,
            attributes: privilege.attributes,
        })?;
    }
    Ok(shown)
}

// The privileges of an account by ascending LUID.
fn privileges_shown(alloc: Global, account: Option<&LsaRow>) -> Result<PrivilegeSet, NoMemory>
    ensures { IfOk result (λ shown. shown ≡ privileges_shown (option_copied account.entry)) }
{
    match account {
        Some(account) => held_shown(alloc, account.privileges.as_slice()),
        None => Ok(Seq::new(alloc)),
    }
}

/// LsarEnumeratePrivilegesAccount (MS-LSAD 3.1.4.5.4): the privileges of an account.
pub fn account_privileges(
    alloc: Global,
    rows: &Rows,
    account: Object,
    args: &Args,
) -> Result<Planned, NoMemory>
    ensures { IfOk result (λ p. p ≡ decision (account_privileges rows.now.lists account args.now)) }
{
    let shown = privileges_shown(alloc, account_of(rows, &account))?;
    Ok(answers(alloc, STATUS_SUCCESS, Outs::Privileges(Some(shown))))
}

fn access_shown(account: Option<&LsaRow>) -> u32
    ensures { result ≡ access_shown (option_copied account.entry) }
{
    match account {
        Some(account) => account.access,
        None => 0,
    }
}

/// LsarGetSystemAccessAccount (MS-LSAD 3.1.4.5.7): the system access of an account. It takes no memory.
pub fn system_access(
    alloc: Global,
    rows: &Rows,
    account: Object,
    args: &Args,
) -> Result<Planned, NoMemory>
    ensures decided { IfOk result (λ p. p ≡ decision (system_access rows.now.lists account args.now)) }
    ensures frugal { OnErr result ⊥ }
{
    let access = access_shown(account_of(rows, &account));
    Ok(answers(alloc, STATUS_SUCCESS, Outs::Bits(access)))
}
